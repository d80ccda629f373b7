//! Needs and costs by the table are those of the definitions.

ghost use Rattle.std.specs.Prelude.{◌≡◌, ℕ, ◌+◌, ◌<◌, List, length};
ghost use Rattle.gypsy_syntax.specs.Programs.{Program};
ghost use Rattle.gypsy_space.specs.{Costs.{Tally}, Needs.{StackSizes, call_spend, has_room, is_nothing, lack_of}, Events.{AreNeeds, need_of, has_room_by}};
ghost use Rattle.gypsy_space.specs.{Events.{lack_by, event_count}, declared.need.Need.{Need}};
ghost use Rattle.gypsy_space.specs.declared.event.CostEvent.TheVariants as event;

/// A call has room by a procedure's needs exactly where it has room, and lacks by them what it lacks. It has room exactly
/// where it lacks nothing.
pub fn room_is_room()
    ensures room { (q : Program) (sizes : StackSizes) (p : ℕ) (u : StackSizes) →
        has_room q sizes p u ≡ has_room_by (need_of q p) sizes u }
    ensures lack { (q : Program) (sizes : StackSizes) (p : ℕ) (u : StackSizes) →
        lack_of q sizes p u ≡ lack_by (need_of q p) sizes u }
    ensures nothing { (q : Program) (sizes : StackSizes) (p : ℕ) (u : StackSizes) →
        has_room q sizes p u ≡ is_nothing (lack_of q sizes p u) }
{}

/// What a call with room costs by the needs is what it spends.
pub fn calls_cost()
    ensures { (q : Program) (ns : List Need) (c : ℕ) (t : Tally) → AreNeeds q ns → c < length q.procs →
        (call_spend q c t).count ≡ t.count + event_count ns (event.Call c) }
{}
