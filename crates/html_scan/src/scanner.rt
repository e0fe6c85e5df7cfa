ghost use Rattle.std.specs.Prelude.{◌≡◌, ℕ, List, None, IfSome};
ghost use Rattle.page_spec.specs.Places.{IsPieceOf};
ghost use Rattle.html_scan.specs.Steps.{NextIs};

use crate::front::first_piece;
use page_spec::{Piece, RawElement};
use std::marker::Model;

/// The reader of a page's pieces. A contract sees it as the page, and the element whose raw text comes next with what
/// is left.
#[derive(Drop)]
pub struct Scanner<'a> {
    page: &'a [u8],
    within: Option<RawElement>,
    rest: &'a [u8],
}

impl<'a> Model for Scanner<'a> {
    ghost use Rattle.std.specs.Prelude.{List, ℕ, Option};
    ghost use Rattle.std.specs.Coded.{coded_ℕ, coded_list, coded×, coded_option};
    ghost use Rattle.page_spec.specs.declared.kinds.RawElement.{RawElement};
    ghost use Rattle.page_spec.specs.contracts.kinds.RawElement as RawElementType;
    ghost use Rattle.html_scan.specs.Steps.{IsScanner};

    ghost Value = { List ℕ × (Option RawElement × List ℕ) };

    ghost coded = { coded× (coded_list coded_ℕ)
        (coded× (coded_option RawElementType.the_row.coded) (coded_list coded_ℕ)) };

    ghost view = { λ s. (s.page.now, (s.within, s.rest.now)) };

    ghost invariant = { λ s. IsScanner s.page.now s.within s.rest.now };
}

impl<'a> Scanner<'a> {
    /// A reader that stands at the page's start.
    pub fn new(text: &'a str) -> Scanner<'a>
        ensures { result ≡ (text.now, (None, text.now)) }
    {
        let page = text.as_bytes();
        Scanner {
            page,
            within: None,
            rest: page,
        }
    }

    /// The next piece; None at the page's end, and at each later call. A page that ends with the start tag of an
    /// element with raw text has an empty broken piece behind it.
    pub fn next(&mut self) -> Option<Piece>
        ensures page { self.new.0 ≡ self.old.0 }
        ensures piece { IfSome result (λ piece. IsPieceOf self.old.0 piece) }
        ensures next { NextIs self.old.0 self.old.1.0 self.old.1.1 result self.new.1.0 self.new.1.1 }
    {
        match first_piece(self.within, self.rest) {
            None => None,
            Some(front) => {
                let from = self.page.len() - self.rest.len();
                let to = self.page.len() - front.rest.len();
                self.within = front.within;
                self.rest = front.rest;
                Some(Piece {
                    kind: front.kind,
                    from,
                    to,
                })
            }
        }
    }
}
