use record::sheet::Sheet;

// What an accepted line is answered, where it is not a page's bytes: three answers, of which two are those of get.
#[derive(Clone, Copy)]
pub enum Reply {
    Done,
    // The slot is empty.
    Empty,
    Found(Sheet),
}
