// The fixed table of what each CIGAR operation consumes.
ghost use Rattle.std.specs.Prelude.{◌≡◌};
ghost use Rattle.raw_bam.specs.Cigar.{op_code};
ghost use Rattle.raw_bam.specs.Operations.{consumes_read, consumes_reference};

#[derive(Clone, Copy)]
pub struct Consumption {
    pub read: bool,
    pub reference: bool,
}

const BOTH: Consumption = Consumption {
    read: true,
    reference: true,
};

const READ: Consumption = Consumption {
    read: true,
    reference: false,
};

const REFERENCE: Consumption = Consumption {
    read: false,
    reference: true,
};

const NEITHER: Consumption = Consumption {
    read: false,
    reference: false,
};

// By BAM code: M I D N S H P = X.
const TABLE: [Consumption; 9] = [
    BOTH, READ, REFERENCE, REFERENCE, READ, NEITHER, NEITHER, BOTH, BOTH,
];

// What the operation of a word consumes; a code above 8 names none, and consumes nothing.
pub fn consumes(word: u32) -> Consumption
    ensures read { result.read ≡ consumes_read (op_code word) }
    ensures reference { result.reference ≡ consumes_reference (op_code word) }
{
    let code = (word % 16) as usize;
    if code < 9 { TABLE[code] } else { NEITHER }
}
