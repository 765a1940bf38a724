// The slots of record keys.
ghost use Rattle.std.specs.Prelude.{◌≡◌};
ghost use Rattle.key_index.specs.Slots.{fnv_1a, slot_of};

// FNV-1a of 64 bits.
const OFFSET_BASIS: u64 = 0xcbf2_9ce4_8422_2325;

const FNV_PRIME: u64 = 0x100_0000_01b3;

fn fnv_1a(bytes: &[u8]) -> u64
    ensures { result ≡ fnv_1a bytes.now }
{
    bytes.iter().fold(OFFSET_BASIS, |hash, byte| {
        (hash ^ *byte as u64).wrapping_mul(FNV_PRIME)
    })
}

/// The slot of a record key, below 65,536: its hash by FNV-1a of 64 bits, modulo the number of slots. It takes no
/// memory.
#[tactic(auto, unfolding(crate::specs::Slots::slot_of))]
pub fn slot_of(key: &[u8]) -> u16
    ensures { result ≡ slot_of key.now }
{
    (fnv_1a(key) % 65_536) as u16
}
