// A finding as one number.
ghost use Rattle.std.specs.Prelude.{◌≡◌};
ghost use Rattle.inspection_terms.specs.Findings.{finding_number};
ghost use Rattle.report.specs.Report.{frame_of, rule_of, place_of};

/// Where a rule matched: the first frame of the datagram, the number of the rule, and the least place
/// of its pattern in the payload.
#[derive(Clone, Copy, Debug, PartialEq, Eq)]
pub struct Finding {
    pub frame: u32,
    pub rule: u16,
    pub place: u16,
}

impl Finding {
    /// `frame * 2^32 + rule * 2^16 + place`, so that numbers are in order of frame, then rule, then
    /// place.
    pub fn number(self) -> u64
        ensures { result ≡ finding_number self.frame (self.rule, self.place) }
    {
        u64::from(self.frame) * 4_294_967_296
            + u64::from(self.rule) * 65_536
            + u64::from(self.place)
    }

    /// The finding of a number.
    pub fn of(number: u64) -> Finding
        ensures { result ≡ record { frame = frame_of number; rule = rule_of number; place = place_of number } }
    {
        Finding {
            frame: (number / 4_294_967_296) as u32,
            rule: (number / 65_536 % 65_536) as u16,
            place: (number % 65_536) as u16,
        }
    }
}
