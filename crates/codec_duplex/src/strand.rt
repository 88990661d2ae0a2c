// A strand's four columns, lent: to be read, or to be written into. They are no slice of positions, since a host lends columns, and a
// pass over bases and qualities alone takes more positions at once.

#[derive(Clone, Copy)]
pub struct Strand<'a, U = u16> {
    pub bases: &'a [u8],
    pub quals: &'a [u8],
    pub depths: &'a [U],
    pub errors: &'a [U],
}

// A duplex is written into such columns too.
#[derive(Drop)]
pub struct StrandMut<'a, U = u16> {
    pub bases: &'a mut [u8],
    pub quals: &'a mut [u8],
    pub depths: &'a mut [U],
    pub errors: &'a mut [U],
}

impl<'a, U> Strand<'a, U> {
    ghost use Rattle.std.specs.Prelude.{◌≡◌, length};

    pub fn len(&self) -> usize
        ensures { result ≡ length self.now.bases.now }
    {
        self.bases.len()
    }
}

impl<'a> Strand<'a> {
    ghost use Rattle.std.specs.Prelude.{◌≡◌, ◌≤◌, length};
    ghost use Rattle.codec_duplex.specs.Lent.{strand_of, first_places};

    // The first n places of each column.
    pub fn first(&self, n: usize) -> Strand<'a>
        requires { (n ≤ length self.now.bases.now) × (n ≤ length self.now.quals.now) × (n ≤ length self.now.depths.now) × (n ≤ length self.now.errors.now) }
        ensures { strand_of result ≡ first_places n (strand_of self.now) }
    {
        Strand {
            bases: &self.bases[..n],
            quals: &self.quals[..n],
            depths: &self.depths[..n],
            errors: &self.errors[..n],
        }
    }
}

impl<'a, U> StrandMut<'a, U> {
    ghost use Rattle.std.specs.Prelude.{◌≡◌, length};
    ghost use Rattle.codec_duplex.specs.Lent.{kept_of, kept_in};

    pub fn len(&self) -> usize
        ensures { result ≡ length self.now.bases.now }
    {
        self.bases.len()
    }

    pub fn as_strand(&self) -> Strand<'_, U>
        ensures { kept_of result ≡ kept_in self.now }
    {
        Strand {
            bases: self.bases,
            quals: self.quals,
            depths: self.depths,
            errors: self.errors,
        }
    }
}
