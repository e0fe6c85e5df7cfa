ghost use Rattle.std.specs.Prelude.{◌≡◌, ◌<◌, ◌+◌, ◌^◌, codes, suc, not, ◌&&◌, ◌||◌, drop};
ghost use Rattle.std.specs.Bool.{OnTrue};
ghost use Rattle.std.specs.List.{slice_get};
ghost use Rattle.module_spec.specs.declared.token.Kind.TheVariants as kind;
ghost use Rattle.grammar_spec.specs.Sights.{is_quoted, passes, holds, at_place, is_kind, is_word, is_operator};
ghost use Rattle.grammar_spec.specs.Sights.{is_any_of, is_arrow, sign_behind_round, on_line, is_closing};
ghost use Rattle.grammar_tokens.specs.Spots.{key_ends, short_ends};
ghost use Rattle.grammar_spec.specs.declared.names.Guard.TheVariants as guard;

use crate::tokens::Tokens;
use grammar_spec::{Guard, Test};
use module_spec::Kind;

impl<'t> Tokens<'t> {
    // The name or punctuator stands there, on the line of the token before it.
    #[tactic(auto, using(crate::proofs::Places::line_at))]
    fn on_line(&self, word: &[u8], at: usize) -> bool
        ensures { result ≡ at_place (on_line (is_word word.now)) self.now at }
    {
        self.quoted(word, at) && !self.line(at)
    }

    // The name or punctuator stands behind the token there.
    #[tactic(auto, using(crate::proofs::Places::past))]
    fn next_quoted(&self, word: &[u8], at: usize) -> bool
        ensures { result ≡ is_quoted word.now self.now (suc at) }
    {
        match self.after(at) {
            None => false,
            Some(next) => self.quoted(word, next),
        }
    }

    // The same, on the line of the token there.
    #[tactic(auto, using(crate::proofs::Places::past))]
    fn next_on_line(&self, word: &[u8], at: usize) -> bool
        ensures { result ≡ at_place (on_line (is_word word.now)) self.now (suc at) }
    {
        match self.after(at) {
            None => false,
            Some(next) => self.on_line(word, next),
        }
    }

    // A line end stands behind the token there, and then another token.
    #[tactic(auto, using(crate::proofs::Places::past))]
    fn next_line(&self, at: usize) -> bool
        ensures { result ≡ at_place (λ t. t.line) self.now (suc at) }
    {
        match self.after(at) {
            None => false,
            Some(next) => self.line(next),
        }
    }

    // A token that ends a key stands behind the token there.
    #[tactic(auto, using(crate::proofs::Places::past))]
    fn next_ends_key(&self, at: usize) -> bool
        ensures { result ≡ at_place (is_any_of key_ends) self.now (suc at) }
    {
        match self.after(at) {
            None => false,
            Some(next) => self.ends_key(next),
        }
    }

    // A token that ends a name in braces stands behind the token there.
    #[tactic(auto, using(crate::proofs::Places::past))]
    fn next_ends_short(&self, at: usize) -> bool
        ensures { result ≡ at_place (is_any_of short_ends) self.now (suc at) }
    {
        match self.after(at) {
            None => false,
            Some(next) => self.ends_short(next),
        }
    }

    // A closing bracket stands behind the token there.
    #[tactic(auto, using(crate::proofs::Places::past))]
    fn next_closes(&self, at: usize) -> bool
        ensures { result ≡ at_place is_closing self.now (suc at) }
    {
        match self.after(at) {
            None => false,
            Some(next) => self.closes(next),
        }
    }

    // `(` stands there, and `=>` behind its partner and on its line.
    #[tactic(auto, using(crate::proofs::Places::round_at))]
    fn is_round_arrow(&self, at: usize) -> bool
        ensures { result ≡ sign_behind_round self.now (slice_get self.now at) (drop (suc at) self.now) }
    {
        self.quoted(b"(", at) && self.has_arrow(at)
    }

    fn is_arrow(&self, at: usize) -> bool
        ensures { result ≡ is_arrow self.now at }
    {
        self.is_ident(at) && self.next_on_line(b"=>", at) || self.is_round_arrow(at)
    }

    // An arrow function begins behind the token there.
    fn next_arrow(&self, at: usize) -> bool
        ensures { result ≡ is_arrow self.now (suc at) }
    {
        match self.after(at) {
            None => false,
            Some(next) => self.is_arrow(next),
        }
    }

    #[tactic(auto, unfolding(grammar_spec::specs::Sights::holds))]
    fn same_line(&self, at: usize) -> bool
        ensures { result ≡ holds guard.SameLine self.now at }
    {
        !self.line(at)
    }

    #[tactic(auto, unfolding(grammar_spec::specs::Sights::holds))]
    fn end_of_text(&self, at: usize) -> bool
        ensures { result ≡ holds guard.EndOfText self.now at }
    {
        self.is_end(at)
    }

    #[tactic(auto, unfolding(grammar_spec::specs::Sights::holds))]
    fn before_comma_or_square(&self, at: usize) -> bool
        ensures { result ≡ holds guard.BeforeCommaOrSquare self.now at }
    {
        self.quoted(b",", at) || self.quoted(b"]", at)
    }

    #[tactic(auto, unfolding(grammar_spec::specs::Sights::holds), using(crate::proofs::Places::either_at))]
    fn import_declaration(&self, at: usize) -> bool
        ensures { result ≡ holds guard.ImportDeclaration self.now at }
    {
        self.quoted(b"import", at) && !(self.next_quoted(b"(", at) || self.next_quoted(b".", at))
    }

    #[tactic(auto, unfolding(grammar_spec::specs::Sights::holds))]
    fn async_function(&self, at: usize) -> bool
        ensures { result ≡ holds guard.AsyncFunction self.now at }
    {
        self.quoted(b"async", at) && self.next_on_line(b"function", at)
    }

    #[tactic(auto, unfolding(grammar_spec::specs::Sights::holds))]
    fn static_block(&self, at: usize) -> bool
        ensures { result ≡ holds guard.StaticBlock self.now at }
    {
        self.quoted(b"static", at) && self.next_quoted(b"{", at)
    }

    #[tactic(auto, unfolding(grammar_spec::specs::Sights::holds))]
    fn modifies(&self, at: usize) -> bool
        ensures { result ≡ holds guard.Modifies self.now at }
    {
        !self.next_ends_key(at) && !(self.quoted(b"async", at) && self.next_line(at))
    }

    #[tactic(auto, unfolding(grammar_spec::specs::Sights::holds))]
    fn label(&self, at: usize) -> bool
        ensures { result ≡ holds guard.Label self.now at }
    {
        self.is_ident(at) && self.next_quoted(b":", at)
    }

    #[tactic(auto, unfolding(grammar_spec::specs::Sights::holds))]
    fn private_in(&self, at: usize) -> bool
        ensures { result ≡ holds guard.PrivateIn self.now at }
    {
        self.is_kind(Kind::Private, at) && self.next_quoted(b"in", at)
    }

    #[tactic(auto, unfolding(grammar_spec::specs::Sights::holds))]
    fn new_operator(&self, at: usize) -> bool
        ensures { result ≡ holds guard.NewOperator self.now at }
    {
        self.quoted(b"new", at) && !self.next_quoted(b".", at)
    }

    #[tactic(auto, unfolding(grammar_spec::specs::Sights::holds))]
    fn shorthand(&self, at: usize) -> bool
        ensures { result ≡ holds guard.Shorthand self.now at }
    {
        self.is_kind(Kind::Name, at) && self.next_ends_short(at)
    }

    #[tactic(auto, unfolding(grammar_spec::specs::Sights::holds), using(crate::proofs::Places::past))]
    fn async_arrow(&self, at: usize) -> bool
        ensures { result ≡ holds guard.AsyncArrow self.now at }
    {
        self.quoted(b"async", at) && !self.next_line(at) && self.next_arrow(at)
    }

    /// What comes from the place on is so.
    #[tactic(auto, unfolding(grammar_spec::specs::Sights::holds))]
    pub fn holds(&self, guard: Guard, at: usize) -> bool
        ensures { result ≡ holds guard self.now at }
    {
        match guard {
            Guard::SameLine => self.same_line(at),
            Guard::NewLine => self.line(at),
            Guard::EndOfText => self.end_of_text(at),
            Guard::BeforeCurly => self.quoted(b"}", at),
            Guard::BeforeCommaOrSquare => self.before_comma_or_square(at),
            Guard::ImportDeclaration => self.import_declaration(at),
            Guard::AsyncFunction => self.async_function(at),
            Guard::StaticBlock => self.static_block(at),
            Guard::Modifies => self.modifies(at),
            Guard::Label => self.label(at),
            Guard::Arrow => self.is_arrow(at),
            Guard::AsyncArrow => self.async_arrow(at),
            Guard::PrivateIn => self.private_in(at),
            Guard::NewOperator => self.new_operator(at),
            Guard::Shorthand => self.shorthand(at),
        }
    }

    // An operator between two operands stands there.
    #[tactic(auto, using(crate::proofs::Places::operator_at))]
    fn is_operator(&self, head: Option<usize>, at: usize) -> bool
        ensures is { result ≡ at_place (is_operator head) self.now at }
        ensures within { OnTrue result (at + 1 < 2 ^ 64) }
    {
        self.operates(at) || self.quoted(b"in", at) && !self.is_outside(head, at)
    }

    // A `,` before no closing bracket stands there.
    fn is_comma(&self, at: usize) -> bool
        ensures is { result ≡ (is_quoted (codes ",") self.now at && not (at_place is_closing self.now (suc at))) }
        ensures within { OnTrue result (at + 1 < 2 ^ 64) }
    {
        self.quoted(b",", at) && !self.next_closes(at)
    }

    /// The token there is one that the test takes.
    #[tactic(auto, unfolding(grammar_spec::specs::Sights::passes))]
    pub fn passes(&self, test: Test, head: Option<usize>, at: usize) -> bool
        ensures is { result ≡ passes test head self.now at }
        ensures within { OnTrue result (at + 1 < 2 ^ 64) }
    {
        match test {
            Test::Ident => self.is_ident(at),
            Test::Name => self.is_kind(Kind::Name, at),
            Test::Private => self.is_kind(Kind::Private, at),
            Test::Number => self.is_kind(Kind::Number, at),
            Test::Text => self.is_kind(Kind::Text, at),
            Test::Regex => self.is_kind(Kind::Regex, at),
            Test::TemplateWhole => self.is_kind(Kind::TemplateWhole, at),
            Test::TemplateHead => self.is_kind(Kind::TemplateHead, at),
            Test::TemplateMiddle => self.is_kind(Kind::TemplateMiddle, at),
            Test::TemplateTail => self.is_kind(Kind::TemplateTail, at),
            Test::AssignOp => self.assigns(at),
            Test::BinOp => self.is_operator(head, at),
            Test::Comma => self.is_comma(at),
        }
    }
}
