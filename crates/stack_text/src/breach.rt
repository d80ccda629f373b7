//! Rules that are broken, and the least breach so far.

ghost use Rattle.std.specs.Prelude.{◌≡◌, Some};
ghost use Rattle.stack_text.specs.Breaches.{lesser_of, when, Notes};

/// A rule that is broken, by its number, and the place that shows it.
#[derive(Clone, Copy, Debug, PartialEq, Eq)]
pub struct Breach {
    /// The number of the rule in its list, from 1.
    pub rule: u8,
    /// The place in the text, counted in bytes from 0.
    pub place: u32,
}

/// Keeps the lesser of the breach and the least so far: place before rule.
fn note(best: &mut Option<Breach>, breach: Breach)
    ensures { best.new ≡ lesser_of best.old (Some breach) }
{
    match *best {
        None => *best = Some(breach),
        Some(old) => {
            if breach.place < old.place || (breach.place == old.place && breach.rule < old.rule) {
                *best = Some(breach);
            }
        }
    }
}

/// Notes a breach where the test holds: the least so far is then the least with it.
pub fn note_if(best: &mut Option<Breach>, test: bool, place: u32, rule: u8)
    ensures { Notes best.old (when test place rule) best.new }
{
    if test {
        note(best, Breach { rule, place });
    }
}
