#![tactic(auto)]
// Runs the published vectors of both ciphers, in both directions. The same vectors with their sources are in
// data/published-vectors.txt.
use aes::Aes;
use block::diblock::Block;
use cipher::tweak::Tweak;
use cipher::tweakable::TweakableCipher;
use skinny::Skinny;
use std::io;

// A block and what it is encrypted to under a key.
#[derive(Clone, Copy)]
struct Vector {
    name: &'static str,
    key: Block,
    plain: Block,
    sealed: Block,
}

const APPENDIX_KEY: Block = 0x2b7e151628aed2a6abf7158809cf4f3c;

// Encryptions of AES-128.
const AES: [Vector; 6] = [
    Vector {
        name: "FIPS 197, appendix B",
        key: APPENDIX_KEY,
        plain: 0x3243f6a8885a308d313198a2e0370734,
        sealed: 0x3925841d02dc09fbdc118597196a0b32,
    },
    Vector {
        name: "FIPS 197, appendix C.1",
        key: 0x000102030405060708090a0b0c0d0e0f,
        plain: 0x00112233445566778899aabbccddeeff,
        sealed: 0x69c4e0d86a7b0430d8cdb78070b4c55a,
    },
    Vector {
        name: "SP 800-38A, F.1.1, block 1",
        key: APPENDIX_KEY,
        plain: 0x6bc1bee22e409f96e93d7e117393172a,
        sealed: 0x3ad77bb40d7a3660a89ecaf32466ef97,
    },
    Vector {
        name: "SP 800-38A, F.1.1, block 2",
        key: APPENDIX_KEY,
        plain: 0xae2d8a571e03ac9c9eb76fac45af8e51,
        sealed: 0xf5d3d58503b9699de785895a96fdbaaf,
    },
    Vector {
        name: "SP 800-38A, F.1.1, block 3",
        key: APPENDIX_KEY,
        plain: 0x30c81c46a35ce411e5fbc1191a0a52ef,
        sealed: 0x43b1cd7f598ece23881b00e3ed030688,
    },
    Vector {
        name: "SP 800-38A, F.1.1, block 4",
        key: APPENDIX_KEY,
        plain: 0xf69f2445df4f9b17ad2b417be66c3710,
        sealed: 0x7b0c785e27e8ad3f8223207104725dd4,
    },
];

// Prints a line for one direction of a vector, and answers whether it is right.
fn told(rt: &HostRuntime, name: &str, way: &str, found: Block, wanted: Block) -> io::Result<bool> {
    let right = found == wanted;
    if right {
        println!(rt; "{name}, {way}: {found:032x}")?;
    } else {
        println!(rt; "{name}, {way}: {found:032x} IS NOT {wanted:032x}")?;
    }
    Ok(right)
}

// Runs a vector in both directions, and counts those that are right.
fn both_ways<E: Fn(Block) -> Block, D: Fn(Block) -> Block>(
    rt: &HostRuntime,
    vector: Vector,
    encrypt: E,
    decrypt: D,
) -> io::Result<u32>
    requires encrypts { E.IsAlwaysCallable encrypt }
    requires decrypts { D.IsAlwaysCallable decrypt }
{
    let there = told(
        rt,
        vector.name,
        "encrypted",
        encrypt(vector.plain),
        vector.sealed,
    )?;
    let back = told(
        rt,
        vector.name,
        "decrypted",
        decrypt(vector.sealed),
        vector.plain,
    )?;
    Ok(u32::from(there) + u32::from(back))
}

fn skinny_vector(rt: &HostRuntime) -> io::Result<u32> {
    let tweak = Tweak {
        head: 0xdf889548cfc7ea52d296339301797449,
        body: 0xab588a34a47f1ab2dfe9c8293fbea9a5,
    };
    let vector = Vector {
        name: "SKINNY-128-384",
        key: 0xab1afac2611012cd8cef952618c3ebe8,
        plain: 0xa3994b66ad85a3459f44e92b08f550cb,
        sealed: 0x94ecf589e2017c601b38c6346a10dcfa,
    };
    let cipher = &Skinny::new(vector.key);
    both_ways(
        rt,
        vector,
        move |x| cipher.encrypt(tweak, x),
        move |x| cipher.decrypt(tweak, x),
    )
}

fn aes_vector(rt: &HostRuntime, vector: Vector) -> io::Result<u32> {
    let cipher = Aes::new(vector.key);
    both_ways(rt, vector, |x| cipher.encrypt(x), |x| cipher.decrypt(x))
}

fn main(rt: HostRuntime) -> io::Result<()> {
    let mut right = skinny_vector(&rt)?;
    for vector in AES {
        right = right.saturating_add(aes_vector(&rt, vector)?);
    }
    println!(rt; "{right} of 14 are right")
}
