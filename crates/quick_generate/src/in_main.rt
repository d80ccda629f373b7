//! A procedure in main: what its variables and conditions are there.

ghost use Rattle.std.specs.Prelude.{◌≡◌, ◌+◌, ◌-◌, ◌++◌, ◌^◌, ◌<◌, ◌≤◌, IfOk, get_or, length, map, replicate, true};
ghost use Rattle.stack_heap.specs.Heaps.{IfOkUnless, OnOkUnless};
ghost use Rattle.gypsy_syntax.specs.{Programs.{Apply, Routine, conds_of, proc_at}, ProgramFits.{Each}};
ghost use Rattle.gypsy_space.specs.{Needs.{has_room}, Nodes.{seen_arg, seen_cond, seen_statement}};
ghost use Rattle.quick_gypsy.specs.InLine.{arg_from, callee_context, condition_from, numbers_from};
ghost use Rattle.quick_generate.specs.{Lining.{HasLowNumber}, LinedViews.{IsTable, called_program, seen_in_main, sizes_of, used_in}};

use crate::calls::{Activation, Calls};
use gypsy_space::{Application, Argument, CallSite, Condition, Node};
use stack_heap::Heap;
use stack_text::Memory;

/// A procedure in main: its activation, the variables of main that its variables are, and the numbers of its first
/// condition among those of main and of the first that no condition has yet.
#[derive(Drop)]
pub(crate) struct InMain {
    pub activation: Activation,
    pub variables: Vec<u32>,
    pub first_cond: u32,
    pub next_cond: u32,
}

impl InMain {
    /// A variable, in main.
    pub(crate) fn variable(&self, variable: u32) -> u32
        ensures { result ≡ get_or self.now.variables.items variable 0 }
    {
        match self.variables.get(variable as usize) {
            Some(found) => *found,
            None => 0,
        }
    }

    /// A condition, in main.
    pub(crate) fn condition(&self, cond: Condition) -> Condition
        requires first { self.now.first_cond ≤ 2 ^ 31 }
        requires low { HasLowNumber (seen_cond cond) }
        ensures { seen_cond result ≡ condition_from self.now.first_cond (seen_cond cond) }
    {
        match cond {
            Condition::Declared(number) => Condition::Declared(self.first_cond + number),
            Condition::Leave | Condition::Routine | Condition::Space => cond,
        }
    }

    /// Conditions, in main.
    pub(crate) fn conditions<H: Heap>(
        &self,
        heap: H,
        conds: &[Condition],
    ) -> Result<Vec<Condition>, Memory>
        requires first { self.now.first_cond ≤ 2 ^ 31 }
        requires low { Each HasLowNumber (map seen_cond conds.now) }
        ensures { IfOkUnless (H.may_refuse heap) result (λ made. map seen_cond made.items
            ≡ map (condition_from self.now.first_cond) (map seen_cond conds.now)) }
    {
        let mut made = Vec::new(heap.handle());
        for cond in conds {
            heap.push(&mut made, self.condition(*cond))?;
        }
        Ok(made)
    }

    /// What the conditions of a callee become: those that the call names, and then routineerror for each local one.
    pub(crate) fn ways_out<H: Heap>(
        &self,
        heap: H,
        conds: &[Condition],
        local_conds: usize,
    ) -> Result<Vec<Condition>, Memory>
        requires first { self.now.first_cond ≤ 2 ^ 31 }
        requires low { Each HasLowNumber (map seen_cond conds.now) }
        ensures { let named = map (condition_from self.now.first_cond) (map seen_cond conds.now) in
            IfOkUnless (H.may_refuse heap) result
            (λ made. map seen_cond made.items ≡ named ++ replicate local_conds Routine) }
    {
        let mut ways = self.conditions(heap, conds)?;
        for _ in 0..local_conds {
            heap.push(&mut ways, Condition::Routine)?;
        }
        Ok(ways)
    }

    /// An argument, in main.
    fn argument<H: Heap>(&self, heap: H, arg: &Argument) -> Result<Argument, Memory>
        ensures { IfOkUnless (H.may_refuse heap) result
            (λ made. seen_arg made ≡ arg_from self.now.variables.items (seen_arg arg.now)) }
    {
        match arg {
            Argument::Variable(variable) => Ok(Argument::Variable(self.variable(*variable))),
            Argument::Constant(value) => Ok(Argument::Constant(value.copied(heap)?)),
        }
    }

    /// Arguments, in main.
    fn arguments<H: Heap>(&self, heap: H, args: &[Argument]) -> Result<Vec<Argument>, Memory>
        ensures { IfOkUnless (H.may_refuse heap) result (λ made. map seen_arg made.items
            ≡ map (arg_from self.now.variables.items) (map seen_arg args.now)) }
    {
        let mut made = Vec::new(heap.handle());
        for arg in args {
            heap.push(&mut made, self.argument(heap, arg)?)?;
        }
        Ok(made)
    }

    /// A predefined call, in main.
    pub(crate) fn application<H: Heap>(&self, heap: H, site: &Application) -> Result<Node, Memory>
        ensures { let args = map (arg_from self.now.variables.items) (map seen_arg site.now.args.items) in
            let statement = Apply site.now.place site.now.which args in
            IfOkUnless (H.may_refuse heap) result (λ made. seen_statement made ≡ statement) }
    {
        let args = self.arguments(heap, site.args.as_slice())?;
        let application = Application {
            place: site.place,
            which: site.which,
            args,
        };
        Ok(Node::Apply(heap.shared(application)?))
    }

    /// The variables of a callee, in main: those that the call names, and so many from `next` on.
    fn callee_variables<H: Heap>(
        &self,
        heap: H,
        actuals: &[u32],
        next: u32,
        count: usize,
    ) -> Result<Vec<u32>, Memory>
        requires { next + count < 2 ^ 32 }
        ensures { let named = map (λ a. get_or self.now.variables.items a 0) actuals.now in
            IfOkUnless (H.may_refuse heap) result (λ made. made.items ≡ named ++ numbers_from next count) }
    {
        let mut variables = Vec::new(heap.handle());
        for actual in actuals {
            heap.push(&mut variables, self.variable(*actual))?;
        }
        append_numbers(heap, &mut variables, next, count)?;
        Ok(variables)
    }

    /// The callee of a call that has room, in main.
    pub(crate) fn callee<H: Heap>(
        &self,
        heap: H,
        calls: &Calls,
        site: &CallSite,
        next: u32,
    ) -> Result<InMain, Memory>
        requires table { IsTable calls.now }
        requires there { site.now.callee < length calls.now.program.now.procedures.items }
        requires nests { 0 < self.now.activation.calls }
        requires room { has_room (called_program calls.now) (sizes_of calls.now) site.now.callee
            (used_in self.now.activation) ≡ true }
        requires next { next + length (proc_at (called_program calls.now) site.now.callee).locals < 2 ^ 32 }
        requires conds { self.now.next_cond + conds_of (proc_at (called_program calls.now) site.now.callee) < 2 ^ 32 }
        ensures inner { let behind = next + length (proc_at (called_program calls.now) site.now.callee).locals in
            let inner = callee_context (called_program calls.now) (seen_in_main self.now next)
            site.now.callee site.now.actuals.items in
            IfOkUnless (H.may_refuse heap) result (λ made. seen_in_main made behind ≡ inner) }
        ensures nests { IfOk result (λ made. made.activation.calls ≡ self.now.activation.calls - 1) }
        ensures first { IfOk result (λ made. made.first_cond ≡ self.now.next_cond) }
    {
        let callee = calls.procedure(site.callee);
        let conds = callee.conds.len() + callee.local_conds.len();
        let count = callee.locals.len();
        let variables = self.callee_variables(heap, site.actuals.as_slice(), next, count)?;
        Ok(InMain {
            activation: calls.activation(site.callee, self.activation),
            variables,
            first_cond: self.next_cond,
            next_cond: self.next_cond + conds as u32,
        })
    }
}

/// Appends so many numbers, one after the other.
pub(crate) fn append_numbers<H: Heap>(
    heap: H,
    numbers: &mut Vec<u32>,
    from: u32,
    count: usize,
) -> Result<(), Memory>
    requires { from + count < 2 ^ 32 }
    ensures { OnOkUnless (H.may_refuse heap) result
        (numbers.new.items ≡ numbers.old.items ++ numbers_from from count) }
{
    for index in 0..count {
        heap.push(numbers, from + index as u32)?;
    }
    Ok(())
}
