// Clause 8.4: the randomizer's sequence, by its octets, and its application.
#![tactic(auto)]

mod octets;

ghost use Rattle.std.specs.Prelude.{◌≡◌, ◌≤◌, length};
ghost use Rattle.memory.specs.Placed.{placed};
ghost use Rattle.randomizer.specs.Randomizer.{octet, randomized, sequence_of};

pub use crate::octets::SEQUENCE;

// The sequence repeats after 255 bits, and so after 255 octets.
pub const PERIOD: usize = 255;

// The sequence, lent, so that it is not made anew at each call. That its octets are the standard's is proved where the value is made.
#[derive(Clone, Copy)]
struct Sequence<'a> {
    octets: &'a [u8; PERIOD],
    ghost standard: { octets.now ≡ sequence_of 255 0 },
}

impl Sequence<'_> {
    fn new() -> Sequence<'static> {
        Sequence { octets: &SEQUENCE }
    }

    // The octet at any place.
    fn octet_at(self, place: u64) -> u8
        ensures { result ≡ octet place }
    {
        self.octets[(place % PERIOD as u64) as usize]
    }

    // One run of octets, exclusive or the sequence from its beginning, into all of the output.
    fn randomize_run(self, octets: &[u8], out: &mut [u8])
        requires { (length octets.now ≤ 255) × (length out.old ≡ length octets.now) }
        ensures { out.new ≡ randomized 0 octets.now }
    {
        for (i, octet) in octets.iter().enumerate() {
            out[i] = *octet ^ self.octets[i];
        }
    }

    // The octets exclusive or the sequence, at the front of the output: run by run, each of PERIOD octets but the last.
    fn randomize(self, octets: &[u8], out: &mut [u8])
        requires { length octets.now ≤ length out.old }
        ensures { out.new ≡ placed out.old 0 (randomized 0 octets.now) }
    {
        for (k, run) in octets.chunks(PERIOD).enumerate() {
            let at = k * PERIOD;
            self.randomize_run(run, &mut out[at..at + run.len()]);
        }
    }
}

// The octet at any place of the sequence.
pub fn octet_at(place: u64) -> u8
    ensures { result ≡ octet place }
{
    Sequence::new().octet_at(place)
}

// Puts octets, randomized or, which is the same, derandomized, to the front of the output; changes nothing where they do not fit.
pub fn randomize(octets: &[u8], out: &mut [u8])
    ensures { out.new ≡ placed out.old 0 (randomized 0 octets.now) }
{
    if octets.len() <= out.len() {
        Sequence::new().randomize(octets, out);
    }
}
