// The window that the longest records of the two sides share, whether they are in phase there, and the duplex's length.
ghost use Rattle.std.specs.Prelude.{◌≡◌, ◌≤◌, pos, IfSome};
ghost use Rattle.codec_window.specs.Alignment.{Admitted, alignment_of};

use caller::reason::RejectionReason;
use raw_bam::cigar::reference_length_from_cigar;
use raw_bam::read_pos::read_pos_at_ref_pos_raw;

// What a side covers of the reference, or the window: both ends belong to it.
#[derive(Clone, Copy)]
pub struct Span {
    pub start: u32,
    pub end: u32,
}

// Where the two sides overlap, and the length of their duplex.
#[derive(Clone, Copy)]
pub struct Overlap {
    pub window: Span,
    pub length: u64,
}

// The longest record of a side: its operations, its position from 1 and its clipped length.
#[derive(Clone, Copy)]
pub struct Aligned<'a> {
    pub ops: &'a [u32],
    pub position: u64,
    pub clipped_length: u64,
    ghost admitted: { Admitted (alignment_of position clipped_length ops.now) },
}

// The longest records of the two sides, and whether R1's is the negative one.
#[derive(Clone, Copy)]
pub struct Pair<'a> {
    pub r1: Aligned<'a>,
    pub r2: Aligned<'a>,
    pub r1_is_negative: bool,
}

impl Span {
    ghost use Rattle.codec_window.specs.Window.{window_length, below_minimum, true_window, legacy_window};

    // May be below zero.
    fn length(self) -> i64
        ensures { result ≡ window_length self }
    {
        i64::from(self.end) - i64::from(self.start) + 1
    }

    fn is_below(self, minimum: u64) -> bool
        ensures { result ≡ below_minimum self minimum }
    {
        i128::from(self.length()) < i128::from(minimum)
    }

    fn true_window(self, other: Span) -> Span
        ensures { result ≡ true_window self other }
    {
        Span {
            start: self.start.max(other.start),
            end: self.end.min(other.end),
        }
    }

    // Of the positive side and the negative one.
    fn legacy_window(self, negative: Span) -> Span
        ensures { result ≡ legacy_window self negative }
    {
        Span {
            start: negative.start,
            end: self.end,
        }
    }
}

impl Aligned<'_> {
    ghost use Rattle.raw_bam.specs.ReadPosition.{read_position};
    ghost use Rattle.codec_window.specs.Window.{alignment, span_of, phase_position, consensus_length};

    #[tactic(auto, unfolding(crate::specs::Window::span_of))]
    fn span(&self) -> Span
        ensures { result ≡ span_of (alignment self.now) }
    {
        let bases = reference_length_from_cigar(self.ops).max(1);
        Span {
            start: self.position as u32,
            end: (self.position + bases - 1) as u32,
        }
    }

    fn read_position(&self, position: u64, ask_last: bool) -> Option<u64>
        ensures value { result ≡ read_position ask_last self.now.ops.now self.now.position position }
        ensures within { IfSome result (λ p. (1 ≤ p) × (p ≤ self.now.clipped_length)) }
    {
        read_pos_at_ref_pos_raw(self.ops, self.position, position, ask_last)
    }

    // A read position for the phase: htsjdk's 0 where the read has none.
    fn phase_position(&self, position: u64) -> u64
        ensures value { result ≡ phase_position (alignment self.now) position }
        ensures within { result ≤ 1024 }
    {
        self.read_position(position, true).unwrap_or(0)
    }

    // The duplex runs from the positive read's first base to the negative read's last, joined at the window's end.
    #[tactic(auto, unfolding(crate::specs::Window::consensus_length))]
    fn compute_consensus_length_raw(&self, negative: &Aligned, overlap_end: u64) -> Option<u64>
        ensures { result ≡ consensus_length (alignment self.now) (alignment negative.now) overlap_end }
    {
        let p = self.read_position(overlap_end, false)?;
        let n = negative.read_position(overlap_end, false)?;
        Some(p + negative.clipped_length - n)
    }
}

impl Pair<'_> {
    ghost use Rattle.codec_window.specs.Window.{alignment, window_of, span_of, phase, in_phase, length_in, reason_without_length, overlap};

    #[tactic(auto, unfolding(crate::specs::Window::phase))]
    fn phase_at(&self, position: u64) -> i64
        ensures { result ≡ phase (alignment self.now.r1) (alignment self.now.r2) position }
    {
        self.r1.phase_position(position) as i64 - self.r2.phase_position(position) as i64
    }

    // Out of phase, one read has an insertion or a deletion in the window that the other has not.
    #[tactic(auto, unfolding(crate::specs::Window::in_phase))]
    fn check_overlap_phase_raw(&self, window: Span) -> bool
        ensures { result ≡ in_phase (alignment self.now.r1) (alignment self.now.r2) window }
    {
        self.phase_at(u64::from(window.start)) == self.phase_at(u64::from(window.end))
    }

    // R1's strand says which read is the positive one.
    #[tactic(auto, unfolding(crate::specs::Window::length_in))]
    fn length_in(&self, window: Span) -> Option<u64>
        ensures { result ≡ length_in (alignment self.now.r1) (alignment self.now.r2) self.now.r1_is_negative window }
    {
        if !self.check_overlap_phase_raw(window) {
            return None;
        }
        if self.r1_is_negative {
            self.r2
                .compute_consensus_length_raw(&self.r1, u64::from(window.end))
        } else {
            self.r1
                .compute_consensus_length_raw(&self.r2, u64::from(window.end))
        }
    }

    // The window that is asked for.
    fn window(&self, r1: Span, r2: Span, legacy: bool) -> Span
        ensures { result ≡ window_of r1 r2 self.now.r1_is_negative legacy }
    {
        if !legacy {
            r1.true_window(r2)
        } else if self.r1_is_negative {
            r2.legacy_window(r1)
        } else {
            r1.legacy_window(r2)
        }
    }

    // In legacy, a pair that the true window would have kept is rejected only because it dovetails.
    #[tactic(auto, unfolding(crate::specs::Window::reason_without_length))]
    fn reason_without_length(&self, legacy: bool, minimum: u64, shared: Span) -> RejectionReason
        ensures { result ≡ reason_without_length (alignment self.now.r1) (alignment self.now.r2) self.now.r1_is_negative legacy minimum shared }
    {
        if legacy && !shared.is_below(minimum) && self.length_in(shared).is_some() {
            RejectionReason::Dovetail
        } else {
            RejectionReason::IndelErrorBetweenStrands
        }
    }

    // Steps 6 and 7.
    #[tactic(auto, unfolding(crate::specs::Window::overlap, crate::specs::Window::overlap_in))]
    pub fn overlap(&self, legacy: bool, minimum: u64) -> Result<Overlap, RejectionReason>
        ensures { result ≡ overlap (alignment self.now.r1) (alignment self.now.r2) self.now.r1_is_negative legacy minimum }
    {
        let r1 = self.r1.span();
        let r2 = self.r2.span();
        let window = self.window(r1, r2, legacy);
        if window.is_below(minimum) {
            return Err(RejectionReason::InsufficientOverlap);
        }
        let Some(length) = self.length_in(window) else {
            return Err(self.reason_without_length(legacy, minimum, r1.true_window(r2)));
        };
        Ok(Overlap { window, length })
    }
}
