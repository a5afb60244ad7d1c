// The calls on stores, for every kind of records. The first four arguments, which stand apart in each exported signature, are
// handed on as they are: a struct of them would be put together in ten places and taken apart again in `opened`. Each call ends
// in C's answer, which its contract tells, so each has its own `match` of what was opened.
ghost use Rattle.std.specs.Prelude.{◌≡◌, Ok};
ghost use Rattle.c_api.specs.Answers.{told, found_or};
ghost use Rattle.c_api.specs.Made.{Forms, Puts, Clears, Gets, Changes, Called, CalledTo};

use crate::answer::{Answer, Refusal};
use crate::kind::Kind;
use crate::open::{Rekeying, opened, opened_to};
use crate::reply::{done, yes};
use calls::refusal::Refusal as StoreRefusal;
use ciphers::any::AnyCipher;
use store::store::Store;

pub fn form<K: Kind>(
    cipher: u32,
    key: &[u8],
    slots: usize,
    page: usize,
    memory: &mut [u8],
) -> Answer
    ensures { Called cipher key.now slots page (memory.new ≡ memory.old) (λ g c a. Forms K.Record g c memory.old memory.new a) result }
{
    match opened(cipher, key, slots, page) {
        Ok(store) => done(store.form::<K>(memory)),
        Err(refusal) => Answer::from(refusal),
    }
}

// The record is judged before the store's checks.
fn put_into<K: Kind + Drop>(
    store: &Store<AnyCipher>,
    memory: &mut [u8],
    slot: usize,
    fields: K::Fields,
) -> Answer
    ensures { Puts K.Record store.now.geometry store.now.cipher memory.old slot (K.making fields) memory.new result }
{
    match K::make(fields) {
        Ok(record) => done(store.put(memory, slot, &record)),
        Err(fault) => Answer::from(Refusal::Record(fault)),
    }
}

pub fn put<K: Kind + Drop>(
    cipher: u32,
    key: &[u8],
    slots: usize,
    page: usize,
    memory: &mut [u8],
    slot: usize,
    fields: &K::Fields,
) -> Answer
    ensures { Called cipher key.now slots page (memory.new ≡ memory.old) (λ g c a. Puts K.Record g c memory.old slot (K.making fields.now) memory.new a) result }
{
    match opened(cipher, key, slots, page) {
        Ok(store) => put_into::<K>(&store, memory, slot, *fields),
        Err(refusal) => Answer::from(refusal),
    }
}

pub fn clear<K: Kind>(
    cipher: u32,
    key: &[u8],
    slots: usize,
    page: usize,
    memory: &mut [u8],
    slot: usize,
) -> Answer
    ensures { Called cipher key.now slots page (memory.new ≡ memory.old) (λ g c a. Clears K.Record g c memory.old slot memory.new a) result }
{
    match opened(cipher, key, slots, page) {
        Ok(store) => done(store.clear::<K>(memory, slot)),
        Err(refusal) => Answer::from(refusal),
    }
}

// What was read: the fields of a record that was found go to `fields`.
fn tell<K: Kind + Drop>(read: Result<Option<K>, StoreRefusal>, fields: &mut K::Fields) -> Answer
    ensures fields { fields.new ≡ found_or K.told read fields.old }
    ensures answer { result ≡ told read }
{
    match read {
        Ok(Some(found)) => {
            *fields = found.tell();
            yes(1)
        }
        Ok(None) => yes(0),
        Err(refusal) => Answer::from(refusal),
    }
}

pub fn get<K: Kind + Drop>(
    cipher: u32,
    key: &[u8],
    slots: usize,
    page: usize,
    memory: &[u8],
    slot: usize,
    working: &mut [u8],
    fields: &mut K::Fields,
) -> Answer
    ensures { Called cipher key.now slots page ((working.new ≡ working.old) × (fields.new ≡ fields.old)) (λ g c a. Gets K.Record K.told g c memory.now slot working.old fields.old working.new fields.new a) result }
{
    match opened(cipher, key, slots, page) {
        Ok(store) => tell::<K>(store.get(memory, slot, working), fields),
        Err(refusal) => Answer::from(refusal),
    }
}

// The store goes over to the cipher under the new key, which the caller keeps from then on.
pub fn change<K: Kind + Drop>(
    cipher: u32,
    key: &[u8],
    slots: usize,
    page: usize,
    memory: &mut [u8],
    new_key: &[u8],
    working: &mut [u8],
) -> Answer
    ensures { CalledTo cipher key.now new_key.now slots page ((memory.new ≡ memory.old) × (working.new ≡ working.old)) (λ g c to a. Changes K.Record g c memory.old to working.old memory.new working.new a) result }
{
    match opened_to(cipher, key, new_key, slots, page) {
        Ok(rekeying) => {
            let Rekeying { mut store, to } = rekeying;
            done(store.change::<K>(memory, to, working))
        }
        Err(refusal) => Answer::from(refusal),
    }
}
