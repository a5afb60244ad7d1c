// Which cipher.
#[derive(Clone, Copy, PartialEq, Eq)]
pub enum CipherName {
    // SKINNY-128-384.
    Skinny,
    // The cascade over AES-128.
    Cascade,
    // The bench cipher, which has no key.
    Bench,
}
