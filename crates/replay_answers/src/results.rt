// The results of the calls, in the form that a record has.
use crate::Answered;
use fields::Written;
use kinds::{Refusal, SetId};
use resolver::{Gone, Live, Resolution, Taken};

impl Answered {
    // An answer without results that shows n bytes where it is done.
    pub fn showing(number: u32, n: usize) -> Answered {
        Answered {
            numbers: [number as u64, 0, 0, 0, 0],
            shown: if number == 0 { n } else { 0 },
        }
    }
}

// What a call that is done has: four results, 0 where it has fewer, and how many bytes it shows.
trait Results {
    fn results(self) -> [u64; 4];

    fn shown(&self) -> usize {
        0
    }
}

impl<T: Results + Copy> From<Result<T, Refusal>> for Answered {
    fn from(r: Result<T, Refusal>) -> Answered {
        match r {
            Ok(x) => {
                let [a, b, c, d] = x.results();
                Answered {
                    numbers: [0, a, b, c, d],
                    shown: x.shown(),
                }
            }
            Err(why) => why.into(),
        }
    }
}

impl From<Refusal> for Answered {
    fn from(why: Refusal) -> Answered {
        Answered::showing(u32::from(why), 0)
    }
}

impl From<Written> for Answered {
    fn from(r: Written) -> Answered {
        Answered {
            numbers: [r.answer as u64, r.length as u64, 0, 0, 0],
            shown: r.length,
        }
    }
}

impl Results for () {
    fn results(self) -> [u64; 4] {
        [0; 4]
    }
}

impl Results for Taken {
    fn results(self) -> [u64; 4] {
        [self.public, self.private, self.interfaces, self.objects].map(u64::from)
    }
}

// No exporter goes by the clock.
impl Results for Gone {
    fn results(self) -> [u64; 4] {
        [0, self.objects, self.interfaces, self.sets].map(|n| n as u64)
    }
}

impl Results for Live {
    fn results(self) -> [u64; 4] {
        [self.exporters, self.objects, self.interfaces, self.sets].map(|n| n as u64)
    }
}

// The number of members.
impl Results for usize {
    fn results(self) -> [u64; 4] {
        [self as u64, 0, 0, 0]
    }
}

// A set that was pinged, with the backoff, which is 0.
impl Results for SetId {
    fn results(self) -> [u64; 4] {
        [self.0, 0, 0, 0]
    }
}

impl Results for Resolution {
    fn results(self) -> [u64; 4] {
        [self.length as u64, self.unknown.low, self.unknown.high, 0]
    }

    fn shown(&self) -> usize {
        self.length
    }
}
