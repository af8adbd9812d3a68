//! A plant in memory as the backend of a desk.

use crate::backend::Backend;
use crate::judged_request::JudgedRequest;
use crate::stopped::Stopped;
use alm_model::{Alarms, look};
use alm_types::{Answer, Query, Refusal, Request, Verdict};

/// A plant in memory, however it keeps its alarms. It never stops.
impl<P: Alarms> Backend for P {
    ghost use Rattle.std.specs.Prelude.{Some, [], ◌∷◌};

    ghost stands = { λ p. Some (P.plant p) };

    ghost kept = { λ p. P.plant p ∷ [] };

    ghost failures = { λ _. 0 };

    fn submit(&mut self, request: &Request) -> Result<JudgedRequest, Stopped> {
        let count = self.count();
        match self.check(request) {
            Ok(action) => {
                self.apply(&action);
                Ok(JudgedRequest {
                    verdict: Verdict::Accepted(action),
                    number: count + 1,
                })
            }
            Err(refusal) => Ok(JudgedRequest {
                verdict: Verdict::Refused(refusal, count),
                number: count,
            }),
        }
    }

    fn ask(&mut self, query: Query, answer: &mut Answer) -> Result<u64, Refusal> {
        look(self, query, answer)
    }

    fn is_stopped(&self) -> bool {
        false
    }

    fn failures(&self) -> u64 {
        0
    }
}
