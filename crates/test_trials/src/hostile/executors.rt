//! Executors that are called directly.

ghost use Rattle.regex_meaning.specs.CodeUnitOffsets.{IsBoundaryOrPastEnd};

use crate::fault::ParseFault;
use crate::hostile::lists::is_first;
use crate::hostile::wanted::is_none;
use regress_match::SearchError;
use regress_match::exec::MatchProducer;

/// Checks whether an executor finds the expected first match from a start on. If an allocation
/// fails, the place where the list continues is unchanged, and the executor finds the match in a
/// second call.
pub fn finds<P: MatchProducer>(
    executor: &mut P,
    start: usize,
    words: &str,
) -> Result<bool, ParseFault>
    requires { IsBoundaryOrPastEnd (P.text executor.old) start }
{
    let Some(pos) = executor.initial_position(start) else {
        return Ok(is_none(words));
    };
    let mut next = Some(pos);
    match executor.next_match(pos, &mut next) {
        Ok(found) => is_first(found, words),
        Err(error) => {
            let unchanged = error == SearchError::Memory && next == Some(pos);
            let found = executor.next_match(pos, &mut next)?;
            if unchanged && is_first(found, words)? {
                Err(ParseFault::Refused)
            } else {
                Err(ParseFault::Wrong)
            }
        }
    }
}
