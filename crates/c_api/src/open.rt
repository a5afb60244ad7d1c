// What a call is made with: the cipher of a selector and a key, and a store of it.
ghost use Rattle.std.specs.Prelude.{◌≡◌, length, MatchResult};
ghost use Rattle.c_api.specs.Opens.{named, Keyed, Shaped, Unkeyed, Barred};

use crate::answer::Refusal;
use block::bytes::read_block;
use calls::geometry::Geometry;
use ciphers::any::AnyCipher;
use ciphers::name::CipherName;
use store::store::Store;

const KEY: usize = 16;

// The cipher of a selector. It is no `TryFrom`, since neither that trait nor the names are of this crate.
fn name_of(selector: u32) -> Option<CipherName>
    ensures { result ≡ named selector }
{
    match selector {
        0 => Some(CipherName::Skinny),
        1 => Some(CipherName::Cascade),
        2 => Some(CipherName::Bench),
        _ => None,
    }
}

// The cipher of a selector under a key.
pub fn keyed(selector: u32, key: &[u8]) -> Result<AnyCipher, Refusal>
    ensures { MatchResult result (λ c. Keyed selector key.now c) (λ e. Unkeyed selector (length key.now ≡ 16) e) }
{
    let name = name_of(selector).ok_or(Refusal::Cipher)?;
    if key.len() != KEY {
        return Err(Refusal::Key);
    }
    Ok(AnyCipher::new(name, read_block(key, 0)))
}

// A store of that cipher and a geometry.
pub fn opened(
    selector: u32,
    key: &[u8],
    slots: usize,
    page: usize,
) -> Result<Store<AnyCipher>, Refusal>
    ensures { MatchResult result (λ s. Keyed selector key.now s.cipher × Shaped slots page s.geometry) (λ e. Barred selector (length key.now ≡ 16) slots page e) }
{
    let cipher = keyed(selector, key)?;
    let geometry = Geometry::new(slots, page)?;
    Ok(Store::new(cipher, geometry))
}

// A store, and the cipher that it is to go over to.
pub struct Rekeying {
    pub store: Store<AnyCipher>,
    pub to: AnyCipher,
}

// The same with the cipher of the selector under a second key.
pub fn opened_to(
    selector: u32,
    key: &[u8],
    new_key: &[u8],
    slots: usize,
    page: usize,
) -> Result<Rekeying, Refusal>
    ensures { MatchResult result (λ s. Keyed selector key.now s.store.cipher × Keyed selector new_key.now s.to × Shaped slots page s.store.geometry) (λ e. Barred selector ((length key.now ≡ 16) × (length new_key.now ≡ 16)) slots page e) }
{
    let from = keyed(selector, key)?;
    let to = keyed(selector, new_key)?;
    let geometry = Geometry::new(slots, page)?;
    Ok(Rekeying {
        store: Store::new(from, geometry),
        to,
    })
}
