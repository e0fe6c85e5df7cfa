ghost use Rattle.std.specs.Prelude.{◌≡◌, ◌<◌, true, ◌∷◌, IfOk, length};
ghost use Rattle.es_grammar.specs.Pending.{pending};
ghost use Rattle.grammar_table.specs.NodeForms.{form_of};
ghost use Rattle.es_grammar.specs.Unwinding.{place, EntersAt, LeavesBefore, TookBefore, StandsAt};
ghost use Rattle.es_grammar.specs.Unwinding.{TurnsAt, TellsOf};
ghost use Rattle.es_grammar.specs.Turning.{entered, behind_stay, behind_miss, behind_take, job_of, jobs_of};
ghost use Rattle.es_grammar.specs.Turning.{state_of, TurnsTo, state, reads, Leads, Absent};
ghost use Rattle.std.specs.Bool.{OnTrue};
ghost use Rattle.grammar_spec.specs.Forms.{rule as call};
ghost use Rattle.grammar_spec.specs.Readings.{stays, misses, is_sole};
ghost use Rattle.grammar_spec.specs.declared.names.Rule.TheVariants.{Assign};

use crate::stack::{Frame, Stack};
use grammar_spec::{Context, Rule};
use grammar_table::{Node, body};
use grammar_tokens::Tokens;
use module_spec::Kind;
use shared_types::Memory;
use std::alloc::Global;

/// What is done next: a form is read, or one has given its outcome.
#[derive(Clone, Copy)]
pub enum Step {
    Enter(&'static Node<'static>),
    Stays,
    Takes,
    Misses,
    Faults(usize),
    TooDeep,
}

/// How the reading ends.
#[derive(Clone, Copy, Debug, PartialEq, Eq)]
pub enum End {
    /// The grammar matches no token.
    Nothing,
    /// The grammar matches what was read.
    Matches,
    /// The grammar misses the first token.
    Misses,
    /// A fault at the token with this number.
    Faults(usize),
    /// More forms would be open than may be.
    TooDeep,
}

/// What comes of one step.
#[derive(Clone, Copy)]
pub enum Turn {
    Goes(Step),
    Ends(End),
}

/// The reader of the tokens by the grammar.
#[derive(Drop)]
pub struct Reader {
    pub at: usize,
    pub asked: Vec<usize>,
    pub context: Context,
    pub stack: Stack,
}

const MOST_OPEN: usize = 1000;
// How far a form is looked into, before it is read.
const MOST_LOOKS: usize = 16;

impl Reader {
    /// A form is read.
    pub fn enter(
        &mut self,
        tokens: &Tokens<'_>,
        node: &'static Node<'static>,
    ) -> Result<Step, Memory>
        ensures stands { IfOk result (λ step. EntersAt tokens.now self.old (form_of node.now)
            → StandsAt tokens.now self.new step) }
        ensures turns { IfOk result (λ step. entered tokens.now (jobs_of self.old) self.old.context self.old.at
            (form_of node.now) ≡ state_of self.new step) }
    {
        match *node {
            Node::Quoted(word) => {
                if tokens.quoted(word, self.at) {
                    self.at += 1;
                    Ok(Step::Takes)
                } else {
                    Ok(Step::Misses)
                }
            }
            Node::One(test) => {
                if tokens.passes(test, self.context.head, self.at) {
                    self.at += 1;
                    Ok(Step::Takes)
                } else {
                    Ok(Step::Misses)
                }
            }
            Node::Ahead(guard) => {
                if tokens.holds(guard, self.at) {
                    Ok(Step::Stays)
                } else {
                    Ok(Step::Misses)
                }
            }
            Node::Then(first, second) => {
                self.stack.push(Frame::Then(second))?;
                Ok(Step::Enter(first))
            }
            Node::Or(first, second) => {
                self.stack.push(Frame::Or(second))?;
                Ok(Step::Enter(first))
            }
            Node::Maybe(inner) => {
                self.stack.push(Frame::Maybe)?;
                Ok(Step::Enter(inner))
            }
            Node::Many(inner) => {
                self.stack.push(Frame::Many(inner))?;
                Ok(Step::Enter(inner))
            }
            Node::Call(rule) => Ok(Step::Enter(body(rule))),
            Node::Asks(inner) => {
                self.stack.push(Frame::Asks(self.at))?;
                Ok(Step::Enter(inner))
            }
            Node::Nested(inner) => {
                if self.context.opened >= MOST_OPEN {
                    return Ok(Step::TooDeep);
                }
                self.stack.push(Frame::Back(self.context))?;
                self.context.opened += 1;
                Ok(Step::Enter(inner))
            }
            Node::Headed(inner) => {
                self.stack.push(Frame::Back(self.context))?;
                self.context.head = tokens.depth(self.at);
                Ok(Step::Enter(inner))
            }
        }
    }

    /// A form took nothing; this was to be done behind it.
    pub fn stay(&mut self, tokens: &Tokens<'_>, frame: Frame) -> Step
        ensures stands { LeavesBefore tokens.now frame self.old stays → StandsAt tokens.now self.new result }
        ensures turns { behind_stay (job_of frame) (jobs_of self.old) self.old.context self.old.at
            ≡ state_of self.new result }
    {
        match frame {
            Frame::Then(next) => Step::Enter(next),
            Frame::Or(_) => Step::Stays,
            Frame::Maybe => Step::Stays,
            Frame::Many(_) => Step::Stays,
            Frame::More(_) => Step::Takes,
            Frame::Behind => Step::Takes,
            Frame::Asks(_) => Step::Stays,
            Frame::Back(context) => {
                self.context = context;
                Step::Stays
            }
        }
    }

    /// A form missed.
    pub fn miss(&mut self, tokens: &Tokens<'_>, frame: Frame) -> Step
        ensures stands { LeavesBefore tokens.now frame self.old misses → StandsAt tokens.now self.new result }
        ensures turns { behind_miss (job_of frame) (jobs_of self.old) self.old.context self.old.at
            ≡ state_of self.new result }
    {
        match frame {
            Frame::Then(_) => Step::Misses,
            Frame::Or(other) => Step::Enter(other),
            Frame::Maybe => Step::Stays,
            Frame::Many(_) => Step::Stays,
            Frame::More(_) => Step::Takes,
            Frame::Behind => Step::Faults(self.at),
            Frame::Asks(_) => Step::Misses,
            Frame::Back(context) => {
                self.context = context;
                Step::Misses
            }
        }
    }

    // All that was taken from the token on is that token, a string literal.
    fn is_sole(&self, tokens: &Tokens<'_>, start: usize) -> bool
        ensures { result ≡ is_sole tokens.now start (place self.now) }
    {
        start < self.at && self.at - start == 1 && tokens.is_kind(Kind::Text, start)
    }

    /// A form took tokens.
    pub fn go_on(&mut self, tokens: &Tokens<'_>, frame: Frame) -> Result<Step, Memory>
        ensures stands { IfOk result (λ step. TookBefore tokens.now frame self.old
            → StandsAt tokens.now self.new step) }
        ensures turns { IfOk result (λ step. behind_take (job_of frame) (jobs_of self.old) self.old.context
            self.old.at ≡ state_of self.new step) }
    {
        match frame {
            Frame::Then(next) => {
                self.stack.push(Frame::Behind)?;
                Ok(Step::Enter(next))
            }
            Frame::Or(_) => Ok(Step::Takes),
            Frame::Maybe => Ok(Step::Takes),
            Frame::Many(inner) => {
                self.stack.push(Frame::More(inner))?;
                Ok(Step::Enter(inner))
            }
            Frame::More(inner) => {
                self.stack.push(Frame::More(inner))?;
                Ok(Step::Enter(inner))
            }
            Frame::Behind => Ok(Step::Takes),
            Frame::Asks(start) => {
                if !self.is_sole(tokens, start) {
                    return Ok(Step::Takes);
                }
                self.asked.push(start)?;
                Ok(Step::Takes)
            }
            Frame::Back(context) => {
                self.context = context;
                Ok(Step::Takes)
            }
        }
    }

    // By the token here alone the form misses, where one look or a test says so.
    fn lacks_one(&self, tokens: &Tokens<'_>, node: &'static Node<'static>) -> bool
        ensures { OnTrue result (Absent tokens.now self.now.context self.now.at (form_of node.now)) }
    {
        match *node {
            Node::Quoted(word) => !tokens.quoted(word, self.at),
            Node::One(test) => !tokens.passes(test, self.context.head, self.at),
            Node::Ahead(guard) => !tokens.holds(guard, self.at),
            _ => false,
        }
    }

    // By the token here alone the form misses, where that is found by few looks.
    fn lacks(&self, tokens: &Tokens<'_>, node: &'static Node<'static>) -> bool
        ensures { OnTrue result (Absent tokens.now self.now.context self.now.at (form_of node.now)) }
    {
        let mut left = node;
        'down: for _ in 0..MOST_LOOKS {
            match *left {
                Node::Then(first, _) => left = first,
                Node::Call(rule) => left = body(rule),
                Node::Or(first, second) => {
                    if !self.lacks_one(tokens, first) {
                        return false;
                    }
                    left = second;
                }
                _ => return self.lacks_one(tokens, left),
            }
        }
        false
    }

    // A `]` stands here, which begins no expression, and few forms are open.
    fn ends_square(&self, tokens: &Tokens<'_>) -> bool
        ensures { OnTrue result (Absent tokens.now self.now.context self.now.at (call Assign)) }
    {
        if self.context.opened >= MOST_OPEN - 1 {
            return false;
        }
        if !tokens.is_kind(Kind::Punctuator, self.at) {
            return false;
        }
        tokens.quoted(b"]", self.at)
    }

    // By the token here alone the rule misses, where that is known without reading it.
    fn begins_none(&self, tokens: &Tokens<'_>, rule: Rule) -> bool
        ensures { OnTrue result (Absent tokens.now self.now.context self.now.at (call rule)) }
    {
        match rule {
            Rule::Assign => self.ends_square(tokens),
            _ => false,
        }
    }

    /// A form is read; one that misses by the token here alone is passed over.
    pub fn open(
        &mut self,
        tokens: &Tokens<'_>,
        node: &'static Node<'static>,
    ) -> Result<Step, Memory>
        ensures stands { IfOk result (λ step. EntersAt tokens.now self.old (form_of node.now)
            → StandsAt tokens.now self.new step) }
        ensures turns { IfOk result (λ step. Leads tokens.now (state (jobs_of self.old) self.old.context self.old.at
            (reads (form_of node.now))) (state_of self.new step)) }
    {
        match *node {
            Node::Or(first, second) => {
                if self.lacks(tokens, first) {
                    return Ok(Step::Enter(second));
                }
                self.enter(tokens, node)
            }
            Node::Maybe(inner) => {
                if self.lacks(tokens, inner) {
                    return Ok(Step::Stays);
                }
                self.enter(tokens, node)
            }
            Node::Many(inner) => {
                if self.lacks(tokens, inner) {
                    return Ok(Step::Stays);
                }
                self.enter(tokens, node)
            }
            Node::Call(rule) => {
                if self.begins_none(tokens, rule) {
                    return Ok(Step::Misses);
                }
                self.enter(tokens, node)
            }
            _ => self.enter(tokens, node),
        }
    }

    /// One step.
    pub fn turn(&mut self, tokens: &Tokens<'_>, step: Step) -> Result<Turn, Memory>
        ensures stands { IfOk result (λ turn. StandsAt tokens.now self.old step
            → TurnsAt tokens.now self.new turn) }
        ensures turns { IfOk result (λ turn. TurnsTo tokens.now (state_of self.old step) self.new turn) }
    {
        match step {
            Step::Enter(node) => Ok(Turn::Goes(self.open(tokens, node)?)),
            Step::Stays => match self.stack.pop() {
                None => Ok(Turn::Ends(End::Nothing)),
                Some(frame) => Ok(Turn::Goes(self.stay(tokens, frame))),
            },
            Step::Takes => match self.stack.pop() {
                None => Ok(Turn::Ends(End::Matches)),
                Some(frame) => Ok(Turn::Goes(self.go_on(tokens, frame)?)),
            },
            Step::Misses => match self.stack.pop() {
                None => Ok(Turn::Ends(End::Misses)),
                Some(frame) => Ok(Turn::Goes(self.miss(tokens, frame))),
            },
            Step::Faults(at) => Ok(Turn::Ends(End::Faults(at))),
            Step::TooDeep => Ok(Turn::Ends(End::TooDeep)),
        }
    }
}

/// What the grammar says of the tokens, and the numbers of those that are requests.
pub fn read(alloc: Global, tokens: &Tokens<'_>) -> Result<(End, Vec<usize>), Memory>
    ensures { IfOk result (λ answer. TellsOf tokens.now answer.0 answer.1.items) }
{
    let mut reader = Reader {
        at: 0,
        asked: Vec::new(alloc),
        context: Context {
            opened: 0,
            head: None,
        },
        stack: Stack::new(alloc),
    };
    let mut step = Step::Enter(body(Rule::Module));
    'read: loop {
        match reader.turn(tokens, step)? {
            Turn::Goes(next) => step = next,
            Turn::Ends(end) => return Ok((end, reader.asked)),
        }
    }
}
