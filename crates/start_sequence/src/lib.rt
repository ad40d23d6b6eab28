// Clause 8.3, Start Sequence, and documents 01 and 02: the first place at an octet boundary where it stands, at most one bit wrong.
#![tactic(auto)]

ghost use Rattle.std.specs.Prelude.{◌≡◌, ◌<◌, ℕ, true, false, drop, IfSome, IfNone, length};
ghost use Rattle.start_sequence.specs.StartSequence.{starts, start_of};

// Whether octets begin with a start sequence: its sixteen bits are compared at once, and those that differ are counted.
#[tactic(auto, using(crate::proofs::Starts::starts_short, crate::proofs::Starts::starts_by_octets))]
fn starts_with_it(octets: &[u8]) -> bool
    ensures { result ≡ starts octets.now }
{
    match octets {
        [first, second, ..] => {
            let wrong = u16::from_be_bytes([*first, *second]) ^ 0xEB90;
            wrong.count_ones() <= 1
        }
        _ => false,
    }
}

// The first place where a start sequence stands, if there is one.
#[tactic(auto, using(crate::proofs::Starts::starts_front, crate::proofs::Starts::starts_last, crate::proofs::Starts::starts_octet))]
fn first_place(input: &[u8]) -> Option<usize>
    ensures there { IfSome result (λ place. (place < length input.now) × (starts (drop place input.now) ≡ true)) }
    ensures before { IfSome result (λ place. (k : ℕ) → k < place → starts (drop k input.now) ≡ false) }
    ensures none { IfNone result ((k : ℕ) → k < length input.now → starts (drop k input.now) ≡ false) }
{
    input.windows(2).position(|two| starts_with_it(two))
}

// The offset of the first start sequence, or the length where there is none.
pub fn find_start(input: &[u8]) -> usize
    ensures { result ≡ start_of input.now }
{
    first_place(input).unwrap_or(input.len())
}
