//! The program that an accepted source is: names become positions.

ghost use Rattle.std.specs.{Prelude.{◌≡◌, All, IfOk, IsTrue, map}, Option.{unwrap_or}, List.{list_all, position}, Str.{bytes_eq}};
ghost use Rattle.stack_heap.specs.Heaps.{IfOkUnless};
ghost use Rattle.stack_text.specs.declared.shape.Kind.TheVariants as kinds;
ghost use Rattle.gypsy_syntax.specs.{Fits.{FitsProcedure}, Ranges.{is_in_range}, ValuesFit.{ValueFits}, Programs.{Apply, Call}, Resolved.{argument_of}};
ghost use Rattle.gypsy_syntax.specs.Resolved.{cond_of, condition_names, item_of, items_of_all, literal_kind, local_value, position_of, procedure_names};
ghost use Rattle.gypsy_syntax.specs.Resolved.{procedure_of, program_of, shape_of, statement_of, statement_of_all, value_items, variable_names, variable_of};
ghost use Rattle.gypsy_syntax.specs.Views.SourceView.{arg_of, items_of_list, literal_of, local_of, parts_of_list, proc_of, source_of, stmt_of};
ghost use Rattle.gypsy_space.specs.Nodes.{held_names, held_shapes, held_values, seen_arg, seen_cond, seen_proc, seen_program, seen_statement, seen_statements};
ghost use Rattle.gypsy_space.specs.{Nodes.{declared_names, seen_proc_names}, Callees.{KnowsProcedures}, CallSites.{IsCallSite}, Resolvable.{ConstantFits}};
ghost use Rattle.gypsy_space.specs.Resolvable.{ConstantsFit, IsResolvable, LocalFits};
ghost use Rattle.gypsy_check.specs.{Accepted.{IsAccepted}, Types.{has_length}};

use crate::callees::{Callees, callees_of};
use crate::program::{Application, Argument, CallSite, Condition, Node, Procedure, Program};
use gypsy_check::Accepted;
use gypsy_syntax::{Arg, Decl, Literal, Local, Predef, Proc, Stmt, TypeText};
use stack_heap::Heap;
use stack_text::{Kind, Memory, Name, Named, Shape, Value};
use std::rc::Rc;

/// Where the first formal of a name is.
fn formal_place(proc: &Proc, name: &Name) -> Option<usize>
    ensures { result ≡ position (λ d. bytes_eq name.now d.name.name) proc.now.formals.items }
{
    proc.formals.iter().position(|decl| *name == decl.name.name)
}

/// Where the first local of a name is.
fn local_place(proc: &Proc, name: &Name) -> Option<usize>
    ensures { result ≡ position (λ l. bytes_eq name.now l.decl.name.name) proc.now.locals.items }
{
    proc.locals
        .iter()
        .position(|local| *name == local.decl.name.name)
}

/// Where the first formal condition of a name is.
fn formal_condition_place(proc: &Proc, name: &Name) -> Option<usize>
    ensures { result ≡ position (λ n. bytes_eq name.now n.name) proc.now.conds.items }
{
    proc.conds.iter().position(|cond| *name == cond.name)
}

/// Where the first local condition of a name is.
fn local_condition_place(proc: &Proc, name: &Name) -> Option<usize>
    ensures { result ≡ position (λ n. bytes_eq name.now n.name) proc.now.local_conds.items }
{
    proc.local_conds.iter().position(|cond| *name == cond.name)
}

/// The position of a variable, formals before locals.
fn variable_place(proc: &Proc, name: &Name) -> usize
    ensures { result ≡ position_of name.now (variable_names (proc_of proc.now)) }
{
    match formal_place(proc, name) {
        Some(place) => place,
        None => match local_place(proc, name) {
            Some(place) => proc.formals.len() + place,
            None => 0,
        },
    }
}

/// The position of a condition, formal before local.
fn condition_place(proc: &Proc, name: &Name) -> usize
    ensures { result ≡ position_of name.now (condition_names (proc_of proc.now)) }
{
    match formal_condition_place(proc, name) {
        Some(place) => place,
        None => match local_condition_place(proc, name) {
            Some(place) => proc.conds.len() + place,
            None => 0,
        },
    }
}

/// A variable.
fn variable(proc: &Proc, name: &Named) -> u32
    requires { FitsProcedure (proc_of proc.now) }
    ensures { result ≡ variable_of (proc_of proc.now) name.now }
{
    variable_place(proc, &name.name) as u32
}

/// A condition.
fn condition(proc: &Proc, name: &Named) -> Condition
    requires { FitsProcedure (proc_of proc.now) }
    ensures { seen_cond result ≡ cond_of (proc_of proc.now) name.now }
{
    if name.name.bytes() == b"leave".as_slice() {
        return Condition::Leave;
    }
    if name.name.bytes() == b"routineerror".as_slice() {
        return Condition::Routine;
    }
    if name.name.bytes() == b"spaceerror".as_slice() {
        return Condition::Space;
    }
    Condition::Declared(condition_place(proc, &name.name) as u32)
}

/// Each variable.
fn variables<H: Heap>(heap: H, proc: &Proc, names: &[Named]) -> Result<Vec<u32>, Memory>
    requires { FitsProcedure (proc_of proc.now) }
    ensures { IfOkUnless (H.may_refuse heap) result (λ vs. vs.items ≡ map (variable_of (proc_of proc.now)) names.now) }
{
    let mut variables = Vec::new(heap.handle());
    for name in names {
        heap.push(&mut variables, variable(proc, name))?;
    }
    Ok(variables)
}

/// Each condition.
fn conditions<H: Heap>(heap: H, proc: &Proc, names: &[Named]) -> Result<Vec<Condition>, Memory>
    requires { FitsProcedure (proc_of proc.now) }
    ensures { IfOkUnless (H.may_refuse heap) result
        (λ cs. map seen_cond cs.items ≡ map (cond_of (proc_of proc.now)) names.now) }
{
    let mut conditions = Vec::new(heap.handle());
    for name in names {
        heap.push(&mut conditions, condition(proc, name))?;
    }
    Ok(conditions)
}

/// A type as a shape.
fn shape(text: TypeText) -> Shape
    requires { IsTrue (has_length text.length) }
    ensures { result ≡ shape_of text }
{
    let length = match text.length {
        None => 0,
        Some(length) => match u32::try_from(length) {
            Ok(length) => length,
            Err(_) => unreachable!(),
        },
    };
    Shape {
        kind: text.kind,
        length,
    }
}

/// A number as an item of a value.
fn number_item(number: i128) -> i32
    requires { IsTrue (is_in_range kinds.Integer number) }
    ensures { result ≡ number }
{
    match i32::try_from(number) {
        Ok(item) => item,
        Err(_) => unreachable!(),
    }
}

/// The item that a simple literal stands for.
fn item(literal: &Literal) -> i32
    requires { IsTrue (is_in_range kinds.Integer (item_of (literal_of literal.now))) }
    ensures { result ≡ item_of (literal_of literal.now) }
{
    match literal {
        Literal::Integer { place: _, number } => number_item(*number),
        Literal::Truth { place: _, truth } => if *truth { 1 } else { 0 },
        Literal::Character { place: _, code } => number_item(*code),
        Literal::List { place: _, items: _ } => 0,
    }
}

/// The items that the literals of a list stand for.
fn list_items<H: Heap>(heap: H, literals: &[Literal]) -> Result<Vec<i32>, Memory>
    requires { All (λ l. IsTrue (is_in_range kinds.Integer (item_of (literal_of l)))) literals.now }
    ensures { IfOkUnless (H.may_refuse heap) result (λ v. v.items ≡ items_of_all (items_of_list literals.now)) }
{
    let mut items = Vec::new(heap.handle());
    for literal in literals {
        heap.push(&mut items, item(literal))?;
    }
    Ok(items)
}

/// The items of the value that a literal stands for.
fn items<H: Heap>(heap: H, literal: &Literal) -> Result<Vec<i32>, Memory>
    requires { IsTrue (list_all (is_in_range kinds.Integer) (value_items (literal_of literal.now))) }
    ensures { IfOkUnless (H.may_refuse heap) result (λ v. v.items ≡ value_items (literal_of literal.now)) }
{
    match literal {
        Literal::List { place: _, items } => list_items(heap, items),
        simple => Ok(heap.copied(&[item(simple)])?),
    }
}

/// The value of a shape that a literal stands for.
fn value<H: Heap>(heap: H, shape: Shape, literal: &Literal) -> Result<Value, Memory>
    requires { ValueFits record { shape = shape; items = value_items (literal_of literal.now) } }
    ensures { IfOkUnless (H.may_refuse heap) result
        (λ v. v ≡ record { shape = shape; items = value_items (literal_of literal.now) }) }
{
    match Value::new(shape, items(heap, literal)?) {
        Some(value) => Ok(value),
        None => unreachable!(),
    }
}

/// The kind of a simple literal.
fn kind(literal: &Literal) -> Kind
    ensures { result ≡ unwrap_or (literal_kind (literal_of literal.now)) kinds.Integer }
{
    match literal {
        Literal::Truth { place: _, truth: _ } => Kind::Boolean,
        Literal::Character { place: _, code: _ } => Kind::Character,
        Literal::Integer {
            place: _,
            number: _,
        }
        | Literal::List { place: _, items: _ } => { Kind::Integer }
    }
}

/// An argument of a predefined call.
fn argument<H: Heap>(heap: H, proc: &Proc, arg: &Arg) -> Result<Argument, Memory>
    requires form { FitsProcedure (proc_of proc.now) }
    requires constant { ConstantFits (arg_of arg.now) }
    ensures { IfOkUnless (H.may_refuse heap) result
        (λ a. seen_arg a ≡ argument_of (proc_of proc.now) (arg_of arg.now)) }
{
    match arg {
        Arg::Variable(name) => Ok(Argument::Variable(variable(proc, name))),
        Arg::Constant(literal) => {
            let shape = Shape {
                kind: kind(literal),
                length: 0,
            };
            Ok(Argument::Constant(value(heap, shape, literal)?))
        }
    }
}

/// Each argument.
fn arguments<H: Heap>(heap: H, proc: &Proc, args: &[Arg]) -> Result<Vec<Argument>, Memory>
    requires form { FitsProcedure (proc_of proc.now) }
    requires constants { All (λ a. ConstantFits (arg_of a)) args.now }
    ensures { IfOkUnless (H.may_refuse heap) result
        (λ r. map seen_arg r.items ≡ map (argument_of (proc_of proc.now)) (map arg_of args.now)) }
{
    let mut arguments = Vec::new(heap.handle());
    for arg in args {
        heap.push(&mut arguments, argument(heap, proc, arg)?)?;
    }
    Ok(arguments)
}

/// Each formal, with its name.
fn formals<H: Heap>(heap: H, decls: &[Decl]) -> Result<Vec<(Name, Shape)>, Memory>
    requires { All (λ d. IsTrue (has_length d.shape.length)) decls.now }
    ensures shapes { IfOkUnless (H.may_refuse heap) result
        (λ r. held_shapes r.items ≡ map (λ d. shape_of d.shape) decls.now) }
    ensures names { IfOk result (λ r. held_names r.items ≡ map (λ d. d.name.name) decls.now) }
{
    let mut formals = Vec::new(heap.handle());
    for decl in decls {
        let name = decl.name.name.copied(heap)?;
        heap.push(&mut formals, (name, shape(decl.shape)))?;
    }
    Ok(formals)
}

/// Each local, with its name and its initial value.
fn locals<H: Heap>(heap: H, locals: &[Local]) -> Result<Vec<(Name, Value)>, Memory>
    requires { All (λ l. LocalFits (local_of l)) locals.now }
    ensures values { IfOkUnless (H.may_refuse heap) result
        (λ r. held_values r.items ≡ map local_value (map local_of locals.now)) }
    ensures names { IfOk result (λ r. held_names r.items ≡ map (λ l. l.decl.name.name) (map local_of locals.now)) }
{
    let mut values = Vec::new(heap.handle());
    for local in locals {
        let value = value(heap, shape(local.decl.shape), &local.value)?;
        let name = local.decl.name.name.copied(heap)?;
        heap.push(&mut values, (name, value))?;
    }
    Ok(values)
}

/// The names of conditions.
fn names<H: Heap>(heap: H, conds: &[Named]) -> Result<Vec<Name>, Memory>
    ensures { IfOkUnless (H.may_refuse heap) result (λ r. r.items ≡ map (λ n. n.name) conds.now) }
{
    let mut names = Vec::new(heap.handle());
    for cond in conds {
        heap.push(&mut names, cond.name.copied(heap)?)?;
    }
    Ok(names)
}

/// A call in a text: the callee's name, and the names of the actuals.
#[derive(Clone, Copy)]
struct CallText<'a> {
    callee: &'a Named,
    actuals: &'a [Named],
    conds: &'a [Named],
}

/// A call of a procedure.
fn call_site<H: Heap>(
    heap: H,
    callees: &Callees,
    proc: &Proc,
    place: u32,
    call: CallText,
) -> Result<CallSite, Memory>
    requires callees { KnowsProcedures callees.now }
    requires form { FitsProcedure (proc_of proc.now) }
    ensures { let procedures = procedure_names (source_of callees.now.source.now) in
        let callee = position_of call.entry.callee.now.name procedures in
        let actuals = map (variable_of (proc_of proc.now)) call.entry.actuals.now in
        IfOkUnless (H.may_refuse heap) result (λ site. IsCallSite place callee actuals
        (map (cond_of (proc_of proc.now)) call.entry.conds.now) site) }
{
    Ok(CallSite {
        place,
        callee: callees.position(&call.callee.name),
        actuals: variables(heap, proc, call.actuals)?,
        conds: conditions(heap, proc, call.conds)?,
    })
}

/// A call of a procedure, as a node.
fn call<H: Heap>(
    heap: H,
    callees: &Callees,
    proc: &Proc,
    place: u32,
    callee: &Named,
    actuals: &[Named],
    conds: &[Named],
) -> Result<Node, Memory>
    requires callees { KnowsProcedures callees.now }
    requires form { FitsProcedure (proc_of proc.now) }
    ensures { let procedures = procedure_names (source_of callees.now.source.now) in
        let callee = position_of callee.now.name procedures in
        let actuals = map (variable_of (proc_of proc.now)) actuals.now in
        let conds = map (cond_of (proc_of proc.now)) conds.now in
        IfOkUnless (H.may_refuse heap) result (λ n. seen_statement n ≡ Call place callee actuals conds) }
{
    let text = CallText {
        callee,
        actuals,
        conds,
    };
    let site = call_site(heap, callees, proc, place, text)?;
    Ok(Node::Call(heap.shared(site)?))
}

/// A predefined call, as a node.
fn application<H: Heap>(
    heap: H,
    proc: &Proc,
    place: u32,
    which: Predef,
    args: &[Arg],
) -> Result<Node, Memory>
    requires form { FitsProcedure (proc_of proc.now) }
    requires constants { All (λ a. ConstantFits (arg_of a)) args.now }
    ensures { let arguments = map (argument_of (proc_of proc.now)) (map arg_of args.now) in
        IfOkUnless (H.may_refuse heap) result (λ n. seen_statement n ≡ Apply place which arguments) }
{
    let args = arguments(heap, proc, args)?;
    let application = Application { place, which, args };
    Ok(Node::Apply(heap.shared(application)?))
}

/// A statement.
#[cycle(statements)]
fn statement<H: Heap>(heap: H, callees: &Callees, proc: &Proc, stmt: &Stmt) -> Result<Node, Memory>
    requires callees { KnowsProcedures callees.now }
    requires form { FitsProcedure (proc_of proc.now) }
    requires constants { ConstantsFit (stmt_of stmt.now) }
    ensures { IfOkUnless (H.may_refuse heap) result (λ n. seen_statement n
        ≡ statement_of (source_of callees.now.source.now) (proc_of proc.now) (stmt_of stmt.now)) }
{
    match stmt {
        Stmt::NoOp { place } => Ok(Node::NoOp(*place)),
        Stmt::Signal { place, cond } => Ok(Node::Signal(*place, condition(proc, cond))),
        Stmt::Seq { parts, .. } => {
            let nodes = statements(heap, callees, proc, parts.as_slice())?;
            Ok(Node::Seq(heap.shared(nodes)?))
        }
        Stmt::Loop { place, body } => { Ok(Node::Loop(*place, shared(heap, callees, proc, body)?)) }
        Stmt::If {
            place,
            test,
            yes,
            no,
        } => {
            let yes = shared(heap, callees, proc, yes)?;
            let no = shared(heap, callees, proc, no)?;
            Ok(Node::If(*place, variable(proc, test), yes, no))
        }
        Stmt::Begin {
            place,
            body,
            conds,
            arm,
        } => {
            let body = shared(heap, callees, proc, body)?;
            let conds = heap.shared(conditions(heap, proc, conds.as_slice())?)?;
            let arm = shared(heap, callees, proc, arm)?;
            Ok(Node::Begin(*place, body, conds, arm))
        }
        Stmt::Call {
            place,
            callee,
            actuals,
            conds,
            ..
        } => call(heap, callees, proc, *place, callee, actuals, conds),
        Stmt::Predef { place, which, args } => {
            application(heap, proc, *place, *which, args.as_slice())
        }
    }
}

/// A part of a statement, which is shared with the work that is made of it.
#[cycle(statements)]
fn shared<H: Heap>(heap: H, callees: &Callees, proc: &Proc, stmt: &Stmt) -> Result<Rc<Node>, Memory>
    requires callees { KnowsProcedures callees.now }
    requires form { FitsProcedure (proc_of proc.now) }
    requires constants { ConstantsFit (stmt_of stmt.now) }
    ensures { IfOkUnless (H.may_refuse heap) result (λ n. seen_statement n.value
        ≡ statement_of (source_of callees.now.source.now) (proc_of proc.now) (stmt_of stmt.now)) }
{
    let node = statement(heap, callees, proc, stmt)?;
    Ok(heap.shared(node)?)
}

/// The parts of a sequence.
#[cycle(statements)]
fn statements<H: Heap>(
    heap: H,
    callees: &Callees,
    proc: &Proc,
    parts: &[Stmt],
) -> Result<Vec<Rc<Node>>, Memory>
    requires callees { KnowsProcedures callees.now }
    requires form { FitsProcedure (proc_of proc.now) }
    requires constants { All (λ s. ConstantsFit (stmt_of s)) parts.now }
    ensures { IfOkUnless (H.may_refuse heap) result (λ ns. seen_statements ns.items
        ≡ statement_of_all (source_of callees.now.source.now) (proc_of proc.now) (parts_of_list parts.now)) }
{
    let mut nodes = Vec::new(heap.handle());
    for part in parts {
        let node = shared(heap, callees, proc, part)?;
        heap.push(&mut nodes, node)?;
    }
    Ok(nodes)
}

/// A procedure.
fn procedure<H: Heap>(heap: H, callees: &Callees, proc: &Proc) -> Result<Procedure, Memory>
    requires callees { KnowsProcedures callees.now }
    requires resolvable { IsResolvable (proc_of proc.now) }
    ensures procedure { IfOkUnless (H.may_refuse heap) result (λ p. seen_proc p
        ≡ procedure_of (source_of callees.now.source.now) (proc_of proc.now)) }
    ensures names { IfOk result (λ p. seen_proc_names p ≡ declared_names (proc_of proc.now)) }
{
    Ok(Procedure {
        place: proc.place,
        formals: formals(heap, proc.formals.as_slice())?,
        locals: locals(heap, proc.locals.as_slice())?,
        conds: names(heap, proc.conds.as_slice())?,
        local_conds: names(heap, proc.local_conds.as_slice())?,
        body: shared(heap, callees, proc, &proc.body)?,
    })
}

/// Each procedure.
fn procedures<H: Heap>(heap: H, callees: &Callees) -> Result<Vec<Procedure>, Memory>
    requires callees { KnowsProcedures callees.now }
    requires resolvable { All (λ p. IsResolvable (proc_of p)) callees.now.source.now.procs.items }
    ensures procedures { IfOkUnless (H.may_refuse heap) result (λ ps. map seen_proc ps.items
        ≡ map (procedure_of (source_of callees.now.source.now)) (source_of callees.now.source.now).procs) }
    ensures names { IfOk result (λ ps. map seen_proc_names ps.items
        ≡ map declared_names (source_of callees.now.source.now).procs) }
{
    let source = callees.source;
    let mut procedures = Vec::new(heap.handle());
    for proc in source.procs.as_slice() {
        heap.push(&mut procedures, procedure(heap, callees, proc)?)?;
    }
    Ok(procedures)
}

/// The program that a source is, with the names of the source's variables and conditions.
pub fn resolve<H: Heap>(heap: H, accepted: &Accepted) -> Result<Program, Memory>
    ensures program { IfOkUnless (H.may_refuse heap) result
        (λ q. seen_program q ≡ program_of (source_of accepted.now)) }
    ensures names { IfOk result (λ q. map seen_proc_names q.procedures.items
        ≡ map declared_names (source_of accepted.now).procs) }
    ensures accepted { IfOk result (λ _. IsAccepted (source_of accepted.now)) }
{
    let source = accepted.source();
    let callees = callees_of(heap, source)?;
    let procedures = procedures(heap, &callees)?;
    Ok(Program {
        main: callees.position(&source.main.name),
        procedures,
    })
}
