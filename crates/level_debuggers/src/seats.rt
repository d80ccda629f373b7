//! Watches in a list.

ghost use Rattle.std.specs.{Prelude.{◌≡◌, ◌+◌, ◌<◌, length, map, IfSome, IfNone, MatchOption, Some, None, vec_len, vec_capacity}, List.{position_from}};
ghost use Rattle.std.specs.Option.{option_map};
ghost use Rattle.level_debuggers.specs.{Tallies.{noted}, Taken.{is_same, taken}};

use crate::watch::{Event, Rule, Tally, Watch};

/// Tells a watch a step.
fn note(watch: &mut Box<dyn Watch>, event: &Event)
    ensures { watching watch.new ≡ noted event.now (watching watch.old) }
{
    watch.note(event);
}

/// Tells each watch a step.
pub(crate) fn note_all(watches: &mut [Box<dyn Watch>], event: &Event)
    ensures { map watching watches.new ≡ map (noted event.now) (map watching watches.old) }
{
    for watch in watches.iter_mut() {
        note(watch, event);
    }
}

/// Whether two rules are the same.
fn is_same(rule: Rule, other: Rule) -> bool
    ensures { result ≡ is_same rule other }
{
    match (rule, other) {
        (Rule::Count, Rule::Count) => true,
        (Rule::Cost, Rule::Cost) => true,
        (Rule::Last, Rule::Last) => true,
        (Rule::Peak, Rule::Peak) => true,
        _ => false,
    }
}

/// Whether a watch has the rule.
fn has_rule(watch: &Box<dyn Watch>, rule: Rule) -> bool
    ensures { result ≡ is_same (watching watch.now).rule rule }
{
    is_same(watch.rule(), rule)
}

/// The position of the first watch of a rule.
fn place_of(watches: &[Box<dyn Watch>], rule: Rule) -> Option<usize>
    ensures place { result ≡ position_from (λ w. is_same w.rule rule) 0 (map watching watches.now) }
    ensures within { IfSome result (λ place. place < length watches.now) }
{
    for (place, watch) in watches.iter().enumerate() {
        if has_rule(watch, rule) {
            return Some(place);
        }
    }
    None
}

/// What a watch has kept.
fn tally_of(watch: &Box<dyn Watch>) -> Tally
    ensures { result ≡ (watching watch.now).tally }
{
    watch.tally()
}

/// The tally of the first watch of a rule.
pub(crate) fn first_tally(watches: &[Box<dyn Watch>], rule: Rule) -> Option<Tally>
    ensures { result ≡ option_map (λ found. found.0.tally) (taken rule (map watching watches.now)) }
{
    match place_of(watches, rule) {
        Some(place) => Some(tally_of(&watches[place])),
        None => None,
    }
}

/// Takes the first watch of a rule out of a list.
pub(crate) fn take_first(watches: &mut Vec<Box<dyn Watch>>, rule: Rule) -> Option<Box<dyn Watch>>
    ensures none { IfNone result (taken rule (map watching watches.old.items) ≡ None) }
    ensures unchanged { IfNone result (watches.new.items ≡ watches.old.items) }
    ensures some { IfSome result (λ first. taken rule (map watching watches.old.items)
        ≡ Some (watching first, map watching watches.new.items)) }
    ensures len { MatchOption result (vec_len watches.new ≡ vec_len watches.old)
        (λ first. vec_len watches.new + 1 ≡ vec_len watches.old) }
    ensures capacity { vec_capacity watches.new ≡ vec_capacity watches.old }
{
    match place_of(watches, rule) {
        Some(place) => Some(watches.remove(place)),
        None => None,
    }
}
