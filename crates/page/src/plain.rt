ghost use Rattle.std.specs.Prelude.{◌≡◌, ◌≤◌, length, take, drop, Some, None};
ghost use Rattle.std.specs.Str.{bytes_eq};
ghost use Rattle.page.specs.Laws.{Told};
ghost use Rattle.page.specs.Pages.{head as head_of, plain, zeros, opened, opened_at};

use crate::fault::{PageFault, SlotFault};
use record::fault::FieldFault;
use record::kind::Record;

const HEAD: usize = 16;

// The mark is a byte of the page, written and compared as one.
const EMPTY: u8 = 0;

const HOLDING: u8 = 1;

// Writes a page's head.
fn write_head<R: Record>(out: &mut [u8], mark: u8, slot: u8)
    requires { length out.old ≡ 16 }
    ensures { out.new ≡ head_of R.Record mark slot }
{
    out.fill(0);
    out[0..4].copy_from_slice(&R::LABEL);
    out[4] = mark;
    out[5] = slot;
}

// The plain page of a slot that holds a record.
pub fn lay_record<R: Record>(page: &mut [u8], slot: u8, content: &R)
    requires { 64 ≤ length page.old }
    ensures { page.new ≡ plain R.Record (length page.old) slot (Some content.now) }
{
    page.fill(0);
    write_head::<R>(&mut page[0..HEAD], HOLDING, slot);
    let end = HEAD + R::WIDTH;
    content.write(&mut page[HEAD..end]);
}

// The plain page of an empty slot. One function for both would take an `Option<&R>`, and a call with `None` in generic code
// names a lifetime that the check cannot show the record to outlive.
pub fn lay_empty<R: Record>(page: &mut [u8], slot: u8)
    requires { 64 ≤ length page.old }
    ensures { page.new ≡ plain R.Record (length page.old) slot None }
{
    page.fill(0);
    write_head::<R>(&mut page[0..HEAD], EMPTY, slot);
}

fn has_head<R: Record>(page: &[u8], mark: u8, slot: u8) -> bool
    requires { 16 ≤ length page.now }
    ensures { result ≡ bytes_eq (take 16 page.now) (head_of R.Record mark slot) }
{
    let mut head = [0u8; 16];
    write_head::<R>(&mut head, mark, slot);
    page[0..16] == head[0..16]
}

fn is_zero(bytes: &[u8]) -> bool
    ensures { result ≡ zeros bytes.now }
{
    bytes.iter().all(|b| *b == 0)
}

// The record after a page's head.
fn read_content<R: Record>(page: &[u8]) -> Result<R, FieldFault>
    requires { 64 ≤ length page.now }
    ensures { result ≡ R.Record.reading (take R.Record.WIDTH (drop 16 page.now)) }
{
    let end = HEAD + R::WIDTH;
    R::read(&page[HEAD..end])
}

// What a plain page says.
fn open_page<R: Record>(page: &[u8], slot: u8) -> Result<Option<R>, PageFault>
    requires { 64 ≤ length page.now }
    ensures { result ≡ opened R.Record slot page.now }
{
    if has_head::<R>(page, EMPTY, slot) {
        if !is_zero(&page[HEAD..]) {
            return Err(PageFault::Head);
        }
        return Ok(None);
    }
    if !has_head::<R>(page, HOLDING, slot) {
        return Err(PageFault::Head);
    }
    if !is_zero(&page[HEAD + R::WIDTH..]) {
        return Err(PageFault::Head);
    }
    let content = read_content::<R>(page)?;
    Ok(Some(content))
}

// What the plain page of a slot says: nothing, a record, or why it is no page of this slot.
pub fn open<R: Record>(page: &[u8], slot: u8) -> Result<Option<R>, SlotFault>
    requires { 64 ≤ length page.now }
    ensures value { result ≡ opened_at R.Record slot page.now }
    ensures told { Told R.Record }
{
    open_page::<R>(page, slot).map_err(|fault| SlotFault { slot, fault })
}
