// Octets placed into lent memory.
#![tactic(auto)]

ghost use Rattle.std.specs.Prelude.{◌≡◌};
ghost use Rattle.memory.specs.Placed.{placed};

// Puts octets into memory from a place on; changes nothing where they do not fit.
#[tactic(auto, using(crate::proofs::Laws::placed_mid, crate::proofs::Laws::placed_not))]
pub fn put(memory: &mut [u8], place: usize, octets: &[u8])
    ensures { memory.new ≡ placed memory.old place octets.now }
{
    if place <= memory.len() && octets.len() <= memory.len() - place {
        memory[place..place + octets.len()].copy_from_slice(octets);
    }
}
