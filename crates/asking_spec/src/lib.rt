//! Askings: what asks questions one after another and goes on by their answers. Definitions and laws alone: each
//! function here is empty, and its contract is a law, for all types of questions, values, states and stops, and for
//! all types of answers, which may go by the question.
#![tactic(auto)]

ghost use Rattle.asking_spec.specs.Laws.{OutcomeThen, QuestionsThen, EvaluatedThen, EvaluatedThrough};
ghost use Rattle.asking_spec.specs.Laws.{SameByQuestions, EvaluatedComes, EvaluatedListed};

use std::marker::Brand;

/// Questions, each with the type of its answers. A law of `Q: Question` is proved for every family of such types.
pub trait Question {
    ghost Answer: { Self → Type 0 };
}

// the proof of a call at this type picks the family
impl Question for Brand {
    ghost Answer = { λ _. Unit {0} };
}

/// Two askings one after another come to what the second comes to.
pub fn outcome_then<Q: Question, X, Y>()
    ensures { OutcomeThen Q Q.Answer X Y }
{}

/// Two askings one after another ask the questions of both, one after another.
pub fn questions_then<Q: Question, X, Y>()
    ensures { QuestionsThen Q Q.Answer X Y }
{}

/// Two askings one after another are evaluated one after another.
pub fn evaluated_then<T, S, Q: Question, X, Y>()
    ensures { EvaluatedThen T S Q Q.Answer X Y }
{}

/// Where questions are put as askings, these are evaluated in their places.
pub fn evaluated_through<T, S, P: Question, Q: Question, X>()
    ensures { EvaluatedThrough T S P P.Answer Q Q.Answer X }
{}

/// Answers that agree on what is asked give the same outcome, by the same questions.
pub fn same_by_questions<Q: Question, X>()
    ensures { SameByQuestions Q Q.Answer X }
{}

/// An evaluation that ends comes to the outcome, and lists the questions.
pub fn evaluated_comes<T, S, Q: Question, X>()
    ensures { EvaluatedComes T S Q Q.Answer X }
{}

/// To list the questions changes nothing else.
pub fn evaluated_listed<T, S, Q: Question, X>()
    ensures { EvaluatedListed T S Q Q.Answer X }
{}
