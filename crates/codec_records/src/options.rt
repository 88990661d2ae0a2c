// The options of a family call. What may be missing has a flag beside it, so that they can cross the Rust boundary.

#[repr(C)]
#[derive(Clone, Copy)]
pub struct Options {
    pub min_reads_per_strand: u64,
    pub has_max_reads_per_strand: bool,
    pub max_reads_per_strand: u64,
    pub min_duplex_length: u64,
    pub legacy_overlap_window: bool,
    pub outer_bases_length: u64,
    pub has_outer_bases_qual: bool,
    pub outer_bases_qual: u8,
    pub has_single_strand_qual: bool,
    pub single_strand_qual: u8,
    pub max_duplex_disagreements: u64,
    pub max_duplex_disagreement_rate: f64,
}
