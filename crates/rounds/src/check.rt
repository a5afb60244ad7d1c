// Which step of a check was wrong.
#[derive(Clone, Copy)]
pub struct Wrong {
    pub step: &'static str,
}

pub type Step = Result<(), Wrong>;

pub fn check(right: bool, step: &'static str) -> Step {
    if right { Ok(()) } else { Err(Wrong { step }) }
}
