//! What a command replies.
ghost use Rattle.std.specs.{Prelude.{◌≡◌, ◌++◌, codes}, Fmt.{decimal}};
ghost use Rattle.stack_heap.specs.Heaps.{IfOkUnless};
ghost use Rattle.stack_text.specs.Lines.{line};
ghost use Rattle.command_replies.specs.Replies.{letter_text, text_rule_number, size_of_text, kind_text, verdict_line};

use crate::lines::line_of;
use command_line::Status;
use fm_machine::Machine;
use fm_show::{hex_digits, push_number};
use itoa::Buffer;
use piton_semantics::ErrorKind;
use stack_heap::Heap;
use stack_text::{Memory, Name, Seq, TextRule};
use std::alloc::Global;

/// The letter of a rule by which a text is refused.
#[derive(Clone, Copy, PartialEq, Eq)]
pub enum RuleLetter {
    /// The form of trees, G1 to G6, of a source or a Piton text.
    G,
    /// The form of sources, M1 to M12.
    M,
    /// The static rules of sources, S1 to S24.
    S,
    /// The form of Piton texts, P1 to P9.
    P,
    /// The rules of Piton's systems, Q1 to Q14.
    Q,
    /// The rules of assembly texts, A1 to A7.
    A,
    /// The rules of the infix language, Y1 to Y9.
    Y,
}

/// What is too small or too large: a stack, or the words of a program.
#[derive(Clone, Copy, PartialEq, Eq)]
pub enum SizeOf {
    /// The control stack, in words.
    Control,
    /// The temporary stack, in words.
    Temporary,
    /// The words of the code, of an image, or of the windows of all tasks together.
    Words,
}

/// How a command came to its end, with what its last line says.
#[derive(Drop)]
pub enum Verdict {
    /// It came to its defined end.
    Done,
    /// The words are no command.
    Usage,
    /// The source, the Piton text, the assembly text or the infix program breaks the rule of a letter and a number, at a place of its text.
    Refused {
        /// Which of the sets of rules it belongs to.
        letter: RuleLetter,
        /// The number behind the letter, from 1.
        number: u8,
        /// Where the text breaks it, in bytes from 0.
        place: u32,
    },
    /// The values break a rule of values files, V1 to V7, at a place of their text.
    Values {
        rule: u8,
        place: u32,
    },
    /// The image breaks a rule of image files, I1 to I9, at a place of the file.
    Image {
        rule: u8,
        place: u64,
    },
    /// So many instructions or steps were made, and the end was not reached.
    Unfinished {
        limit: u64,
    },
    /// Of several tasks some did not reach their ends, and all that is to be said of each is said.
    SomeUnfinished,
    /// After `count` instructions the next one needs an address outside the window.
    Outside {
        address: u32,
        count: u64,
    },
    /// After so many steps a run of Piton met an error, at a place of a program.
    Error {
        /// Why the next step is refused.
        kind: ErrorKind,
        /// The name of the program whose instruction is refused.
        program: Name,
        /// The position of that instruction in the program, from 0.
        place: u32,
        /// How many steps were made before it.
        count: u64,
    },
    /// A line of the script breaks a rule of scripts, D1 to D6. Lines are counted from 1.
    Script {
        rule: u8,
        line: u32,
    },
    /// The image is not one that an assembly text spells.
    NotPlain,
    /// Main reaches this procedure by calls, and it reaches itself.
    Recursive {
        procedure: Name,
    },
    /// The certificate breaks a rule of certificates, Z1 to Z3, at a place of its text.
    Certificate {
        rule: u8,
        place: u32,
    },
    /// A size is refused: a stack needs at least so many words, or a program has so many.
    Size {
        of: SizeOf,
        need: u64,
    },
}

/// The letter of a rule.
fn letter_text(letter: RuleLetter) -> &'static str
    ensures { result.now ≡ letter_text letter }
{
    match letter {
        RuleLetter::G => "G",
        RuleLetter::M => "M",
        RuleLetter::S => "S",
        RuleLetter::P => "P",
        RuleLetter::Q => "Q",
        RuleLetter::A => "A",
        RuleLetter::Y => "Y",
    }
}

/// The number of a rule of the form of texts, whose letter is G. They are declared in this order.
pub fn text_rule_number(rule: TextRule) -> u8
    ensures { result ≡ text_rule_number rule }
{
    rule as u8 + 1
}

/// What a size is of.
fn size_of_text(of: SizeOf) -> &'static str
    ensures { result.now ≡ size_of_text of }
{
    match of {
        SizeOf::Control => "control",
        SizeOf::Temporary => "temporary",
        SizeOf::Words => "words",
    }
}

/// The line of a text that breaks a rule.
fn refused_line<H: Heap>(
    heap: H,
    letter: RuleLetter,
    number: u8,
    place: u32,
) -> Result<Vec<u8>, Memory>
    ensures { IfOkUnless (H.may_refuse heap) result
        (λ line. line.items ≡ verdict_line (Verdict.Refused letter number place)) }
{
    let mut number_digits = Buffer::new();
    let mut place_digits = Buffer::new();
    let letter = letter_text(letter).as_bytes();
    let number = number_digits.format(number).as_bytes();
    let place = place_digits.format(place).as_bytes();
    line_of(heap, &[b"refused ", letter, number, b" at ", place])
}

/// The line of a rule, after this front, that is broken at a place.
fn broken_line<H: Heap>(heap: H, front: &str, rule: u8, place: u64) -> Result<Vec<u8>, Memory>
    ensures { IfOkUnless (H.may_refuse heap) result
        (λ text. text.items ≡ line (front.now ++ decimal rule ++ codes " at " ++ decimal place)) }
{
    let mut rule_digits = Buffer::new();
    let mut place_digits = Buffer::new();
    let rule = rule_digits.format(rule).as_bytes();
    let place = place_digits.format(place).as_bytes();
    line_of(heap, &[front.as_bytes(), rule, b" at ", place])
}

/// The line of values that break a rule.
fn values_line<H: Heap>(heap: H, rule: u8, place: u32) -> Result<Vec<u8>, Memory>
    ensures { IfOkUnless (H.may_refuse heap) result (λ line. line.items ≡ verdict_line (Verdict.Values rule place)) }
{
    broken_line(heap, "values V", rule, u64::from(place))
}

/// The line of an image that breaks a rule.
fn image_line<H: Heap>(heap: H, rule: u8, place: u64) -> Result<Vec<u8>, Memory>
    ensures { IfOkUnless (H.may_refuse heap) result (λ line. line.items ≡ verdict_line (Verdict.Image rule place)) }
{
    broken_line(heap, "image I", rule, place)
}

/// The line of a run that did not come to its end.
fn unfinished_line<H: Heap>(heap: H, limit: u64) -> Result<Vec<u8>, Memory>
    ensures { IfOkUnless (H.may_refuse heap) result (λ line. line.items ≡ verdict_line (Verdict.Unfinished limit)) }
{
    let mut digits = Buffer::new();
    line_of(heap, &[b"unfinished ", digits.format(limit).as_bytes()])
}

/// The line of an address outside the window.
fn outside_line<H: Heap>(heap: H, address: u32, count: u64) -> Result<Vec<u8>, Memory>
    ensures { IfOkUnless (H.may_refuse heap) result
        (λ line. line.items ≡ verdict_line (Verdict.Outside address count)) }
{
    let mut digits = Buffer::new();
    let count = digits.format(count).as_bytes();
    line_of(
        heap,
        &[b"outside ", &hex_digits(address), b" after ", count],
    )
}

/// The line of a script that breaks a rule.
fn script_line<H: Heap>(heap: H, rule: u8, line: u32) -> Result<Vec<u8>, Memory>
    ensures { IfOkUnless (H.may_refuse heap) result (λ text. text.items ≡ verdict_line (Verdict.Script rule line)) }
{
    let mut rule_digits = Buffer::new();
    let mut line_digits = Buffer::new();
    let rule = rule_digits.format(rule).as_bytes();
    let line = line_digits.format(line).as_bytes();
    line_of(heap, &[b"script D", rule, b" at line ", line])
}

/// The line of a procedure that reaches itself.
fn recursive_line<H: Heap>(heap: H, procedure: &Name) -> Result<Vec<u8>, Memory>
    ensures { IfOkUnless (H.may_refuse heap) result
        (λ line. line.items ≡ verdict_line (Verdict.Recursive procedure.now)) }
{
    line_of(heap, &[b"recursive ", procedure.bytes()])
}

/// The line of a certificate that breaks a rule.
fn certificate_line<H: Heap>(heap: H, rule: u8, place: u32) -> Result<Vec<u8>, Memory>
    ensures { IfOkUnless (H.may_refuse heap) result
        (λ line. line.items ≡ verdict_line (Verdict.Certificate rule place)) }
{
    broken_line(heap, "certificate Z", rule, u64::from(place))
}

/// The line of a size that is refused.
fn size_line<H: Heap>(heap: H, of: SizeOf, need: u64) -> Result<Vec<u8>, Memory>
    ensures { IfOkUnless (H.may_refuse heap) result (λ line. line.items ≡ verdict_line (Verdict.Size of need)) }
{
    let mut digits = Buffer::new();
    let of = size_of_text(of).as_bytes();
    line_of(heap, &[b"size ", of, b" ", digits.format(need).as_bytes()])
}

/// Why a step of Piton is refused.
fn kind_text(kind: ErrorKind) -> &'static str
    ensures { result.now ≡ kind_text kind }
{
    match kind {
        ErrorKind::TempEmpty => "temp-empty",
        ErrorKind::Tag => "tag",
        ErrorKind::Range => "range",
        ErrorKind::TempFull => "temp-full",
        ErrorKind::CtrlFull => "ctrl-full",
    }
}

/// The line of a run of Piton that met an error.
fn error_line<H: Heap>(
    heap: H,
    kind: ErrorKind,
    program: &Name,
    place: u32,
    count: u64,
) -> Result<Vec<u8>, Memory>
    ensures { IfOkUnless (H.may_refuse heap) result
        (λ line. line.items ≡ verdict_line (Verdict.Error kind program.now place count)) }
{
    let mut text = heap.copied(b"error ")?;
    heap.extend_from_slice(&mut text, kind_text(kind).as_bytes())?;
    heap.extend_from_slice(&mut text, b" at ")?;
    heap.extend_from_slice(&mut text, program.bytes())?;
    heap.push(&mut text, b' ')?;
    push_number(heap, &mut text, place)?;
    heap.extend_from_slice(&mut text, b" after ")?;
    push_number(heap, &mut text, count)?;
    heap.push(&mut text, b'\n')?;
    Ok(text)
}

impl Verdict {
    ghost use Rattle.std.specs.Prelude.{◌≡◌};
    ghost use Rattle.stack_heap.specs.Heaps.{IfOkUnless};
    ghost use Rattle.command_replies.specs.Replies.{status_of, verdict_line};

    /// The exit status.
    pub fn status(&self) -> Status
        ensures { result ≡ status_of self.now }
    {
        match self {
            Verdict::Done => Status::Done,
            Verdict::Usage => Status::Usage,
            Verdict::Refused { .. } => Status::Refused,
            Verdict::Values { .. } => Status::Values,
            Verdict::Image { .. } => Status::Image,
            Verdict::Unfinished { .. } | Verdict::SomeUnfinished => Status::Unfinished,
            Verdict::Outside { .. } => Status::Outside,
            Verdict::Error { .. } => Status::Error,
            Verdict::Script { .. } => Status::Script,
            Verdict::NotPlain => Status::NotPlain,
            Verdict::Recursive { .. } => Status::Recursive,
            Verdict::Certificate { .. } => Status::Certificate,
            Verdict::Size { .. } => Status::Size,
        }
    }

    /// The last line, or nothing where all is said.
    pub fn line<H: Heap>(&self, heap: H) -> Result<Vec<u8>, Memory>
        ensures { IfOkUnless (H.may_refuse heap) result (λ line. line.items ≡ verdict_line self.now) }
    {
        match self {
            Verdict::Done | Verdict::SomeUnfinished => Ok(Vec::new(heap.handle())),
            Verdict::Usage => Ok(heap.copied(b"usage\n")?),
            Verdict::Refused {
                letter,
                number,
                place,
            } => refused_line(heap, *letter, *number, *place),
            Verdict::Values { rule, place } => values_line(heap, *rule, *place),
            Verdict::Image { rule, place } => image_line(heap, *rule, *place),
            Verdict::Unfinished { limit } => unfinished_line(heap, *limit),
            Verdict::Outside { address, count } => outside_line(heap, *address, *count),
            Verdict::Error {
                kind,
                program,
                place,
                count,
            } => error_line(heap, *kind, program, *place, *count),
            Verdict::Script { rule, line } => script_line(heap, *rule, *line),
            Verdict::NotPlain => Ok(heap.copied(b"not plain\n")?),
            Verdict::Recursive { procedure } => recursive_line(heap, procedure),
            Verdict::Certificate { rule, place } => certificate_line(heap, *rule, *place),
            Verdict::Size { of, need } => size_line(heap, *of, *need),
        }
    }
}

/// What a command says before its last line, how it ended, and the machine that was run.
#[derive(Drop)]
pub struct Reply {
    /// The lines before the last one.
    pub said: Seq<u8>,
    /// How the command ended, which gives the last line and the status.
    pub verdict: Verdict,
    /// The machine as its run left it, or none where no machine was run.
    pub machine: Option<Machine>,
}

impl Reply {
    ghost use Rattle.std.specs.Prelude.{◌≡◌};
    ghost use Rattle.command_replies.specs.Replies.{verdict_alone, reply_of};

    /// A verdict alone. It takes no memory.
    pub fn verdict_alone(handle: Global, verdict: Verdict) -> Reply
        ensures { reply_of result ≡ verdict_alone verdict }
    {
        Reply {
            said: Seq::new(handle),
            verdict,
            machine: None,
        }
    }
}
