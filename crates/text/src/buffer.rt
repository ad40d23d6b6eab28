// Octets under way in fixed memory: a line that is read, or a row that is written.
ghost use Rattle.std.specs.Prelude.{◌≡◌, ◌≤◌, []};

// Its octets, of which the first len stand.
#[derive(Clone, Copy)]
pub struct Buffer<const ROOM: usize> {
    octets: [u8; ROOM],
    len: usize,
    ghost within: { len ≤ ROOM },
}

impl<const ROOM: usize> Buffer<ROOM> {
    ghost use Rattle.text.specs.Buffer.{standing, put_behind};

    // None stands.
    pub fn new() -> Self
        ensures { standing result ≡ [] }
    {
        Buffer {
            octets: [0; ROOM],
            len: 0,
        }
    }

    // Those that stand.
    pub fn as_slice(&self) -> &[u8]
        ensures { result.now ≡ standing self.now }
    {
        &self.octets[..self.len]
    }

    // Octets behind them, where there is room for all. Else nothing changes.
    pub fn put(&mut self, octets: &[u8])
        ensures { standing self.new ≡ put_behind ROOM (standing self.old) octets.now }
    {
        if octets.len() <= ROOM - self.len {
            let end = self.len + octets.len();
            let all = &mut self.octets[..];
            all[self.len..end].copy_from_slice(octets);
            self.len = end;
        }
    }
}
