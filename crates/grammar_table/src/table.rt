ghost use Rattle.std.specs.Prelude.{◌≡◌};
ghost use Rattle.grammar_spec.specs.Statements.{body as body_form};
ghost use Rattle.grammar_table.specs.NodeForms.{form_of};

use crate::node::Node;
use grammar_spec::{Guard, Rule, Test};

// One form after another.
macro_rules! then {
    ($last:expr) => { $last };
    ($first:expr, $($rest:expr),+) => { Node::Then(&$first, &then!($($rest),+)) };
}

// The first of some forms that isn't a miss.
macro_rules! or {
    ($last:expr) => { $last };
    ($first:expr, $($rest:expr),+) => { Node::Or(&$first, &or!($($rest),+)) };
}

// A form, and further ones each after a comma; a comma may stand last.
macro_rules! list {
    ($item:expr) => {
        Node::Maybe(&then!(
            $item,
            Node::Many(&then!(Node::One(Test::Comma), $item)),
            Node::Maybe(&Node::Quoted(b","))
        ))
    };
}

// A form in places that commas divide.
macro_rules! places {
    ($item:expr) => {
        Node::Many(&or!(Node::Quoted(b","), then!($item, Node::Ahead(Guard::BeforeCommaOrSquare))))
    };
}

static MODULE: Node<'static> = then!(
    Node::Many(&Node::Call(Rule::Item)),
    Node::Ahead(Guard::EndOfText)
);

static ITEM: Node<'static> = or!(
    then!(
        Node::Ahead(Guard::ImportDeclaration),
        Node::Call(Rule::Import)
    ),
    Node::Call(Rule::Export),
    Node::Call(Rule::Statement)
);

static IMPORT: Node<'static> = then!(
    Node::Quoted(b"import"),
    or!(
        Node::Asks(&Node::One(Test::Text)),
        then!(
            Node::Call(Rule::Clause),
            Node::Quoted(b"from"),
            Node::Asks(&Node::One(Test::Text))
        )
    ),
    Node::Maybe(&Node::Call(Rule::With)),
    Node::Call(Rule::End)
);

static CLAUSE: Node<'static> = or!(
    Node::Call(Rule::Star),
    Node::Call(Rule::Named),
    then!(
        Node::One(Test::Ident),
        Node::Maybe(&then!(
            Node::Quoted(b","),
            or!(Node::Call(Rule::Star), Node::Call(Rule::Named))
        ))
    )
);

static STAR: Node<'static> = then!(
    Node::Quoted(b"*"),
    Node::Quoted(b"as"),
    Node::One(Test::Ident)
);

static NAMED: Node<'static> = then!(
    Node::Quoted(b"{"),
    list!(then!(
        Node::Call(Rule::Word),
        Node::Maybe(&then!(Node::Quoted(b"as"), Node::Call(Rule::Word)))
    )),
    Node::Quoted(b"}")
);

static WORD: Node<'static> = or!(Node::One(Test::Name), Node::One(Test::Text));

static WITH: Node<'static> = then!(
    Node::Quoted(b"with"),
    Node::Quoted(b"{"),
    list!(then!(
        Node::Call(Rule::Word),
        Node::Quoted(b":"),
        Node::One(Test::Text)
    )),
    Node::Quoted(b"}")
);

static EXPORT: Node<'static> = then!(
    Node::Quoted(b"export"),
    or!(
        then!(
            Node::Quoted(b"*"),
            Node::Maybe(&then!(Node::Quoted(b"as"), Node::Call(Rule::Word))),
            Node::Quoted(b"from"),
            Node::Asks(&Node::One(Test::Text)),
            Node::Maybe(&Node::Call(Rule::With)),
            Node::Call(Rule::End)
        ),
        then!(
            Node::Call(Rule::Named),
            Node::Maybe(&then!(
                Node::Quoted(b"from"),
                Node::Asks(&Node::One(Test::Text)),
                Node::Maybe(&Node::Call(Rule::With))
            )),
            Node::Call(Rule::End)
        ),
        then!(
            Node::Quoted(b"default"),
            or!(
                Node::Call(Rule::Function),
                Node::Call(Rule::Class),
                then!(Node::Call(Rule::Assign), Node::Call(Rule::End))
            )
        ),
        then!(Node::Call(Rule::Vars), Node::Call(Rule::End)),
        Node::Call(Rule::Function),
        Node::Call(Rule::Class)
    )
);

static VARS: Node<'static> = then!(
    or!(
        Node::Quoted(b"var"),
        Node::Quoted(b"let"),
        Node::Quoted(b"const")
    ),
    Node::Call(Rule::Var),
    Node::Many(&then!(Node::Quoted(b","), Node::Call(Rule::Var)))
);

static VAR: Node<'static> = then!(
    Node::Call(Rule::Binding),
    Node::Maybe(&Node::Call(Rule::Init))
);

static INIT: Node<'static> = then!(Node::Quoted(b"="), Node::Call(Rule::Assign));

static BINDING: Node<'static> = Node::Nested(&or!(
    Node::One(Test::Ident),
    then!(
        Node::Quoted(b"["),
        places!(Node::Call(Rule::Elem)),
        Node::Quoted(b"]")
    ),
    then!(
        Node::Quoted(b"{"),
        list!(Node::Call(Rule::BindProp)),
        Node::Quoted(b"}")
    )
));

static ELEM: Node<'static> = or!(
    then!(Node::Quoted(b"..."), Node::Call(Rule::Binding)),
    then!(
        Node::Call(Rule::Binding),
        Node::Maybe(&Node::Call(Rule::Init))
    )
);

static BIND_PROP: Node<'static> = or!(
    then!(Node::Quoted(b"..."), Node::Call(Rule::Binding)),
    Node::Call(Rule::Short),
    then!(
        Node::Call(Rule::Key),
        Node::Quoted(b":"),
        Node::Call(Rule::Binding),
        Node::Maybe(&Node::Call(Rule::Init))
    )
);

static SHORT: Node<'static> = then!(
    Node::Ahead(Guard::Shorthand),
    Node::One(Test::Ident),
    Node::Maybe(&Node::Call(Rule::Init))
);

static KEY: Node<'static> = or!(
    Node::One(Test::Name),
    Node::One(Test::Text),
    Node::One(Test::Number),
    then!(
        Node::Quoted(b"["),
        Node::Call(Rule::Assign),
        Node::Quoted(b"]")
    )
);

static FUNCTION: Node<'static> = then!(
    Node::Maybe(&then!(Node::Ahead(Guard::AsyncFunction), Node::Quoted(b"async"))),
    Node::Quoted(b"function"),
    Node::Maybe(&Node::Quoted(b"*")),
    Node::Maybe(&Node::One(Test::Ident)),
    Node::Call(Rule::Params),
    Node::Call(Rule::Block)
);

static PARAMS: Node<'static> = then!(
    Node::Quoted(b"("),
    list!(Node::Call(Rule::Elem)),
    Node::Quoted(b")")
);

static CLASS: Node<'static> = then!(
    Node::Quoted(b"class"),
    Node::Nested(&then!(
        Node::Maybe(&Node::One(Test::Ident)),
        Node::Maybe(&then!(Node::Quoted(b"extends"), Node::Call(Rule::Left))),
        Node::Quoted(b"{"),
        Node::Many(&Node::Call(Rule::Member)),
        Node::Quoted(b"}")
    ))
);

static MEMBER: Node<'static> = or!(
    Node::Quoted(b";"),
    then!(
        Node::Ahead(Guard::StaticBlock),
        Node::Quoted(b"static"),
        Node::Call(Rule::Block)
    ),
    then!(
        Node::Many(&Node::Call(Rule::Modifier)),
        Node::Maybe(&Node::Quoted(b"*")),
        or!(Node::Call(Rule::Key), Node::One(Test::Private)),
        or!(
            then!(Node::Call(Rule::Params), Node::Call(Rule::Block)),
            then!(Node::Maybe(&Node::Call(Rule::Init)), Node::Call(Rule::End))
        )
    )
);

static MODIFIER: Node<'static> = then!(
    Node::Ahead(Guard::Modifies),
    or!(
        Node::Quoted(b"get"),
        Node::Quoted(b"set"),
        Node::Quoted(b"async"),
        Node::Quoted(b"static")
    )
);

static BLOCK: Node<'static> = then!(
    Node::Quoted(b"{"),
    Node::Many(&Node::Call(Rule::Statement)),
    Node::Quoted(b"}")
);

static STATEMENT: Node<'static> = Node::Nested(&or!(
    Node::Call(Rule::Block),
    Node::Quoted(b";"),
    then!(Node::Call(Rule::Vars), Node::Call(Rule::End)),
    Node::Call(Rule::Function),
    Node::Call(Rule::Class),
    then!(
        Node::Quoted(b"if"),
        Node::Call(Rule::Condition),
        Node::Call(Rule::Statement),
        Node::Maybe(&then!(Node::Quoted(b"else"), Node::Call(Rule::Statement)))
    ),
    then!(
        Node::Quoted(b"for"),
        Node::Maybe(&Node::Quoted(b"await")),
        Node::Quoted(b"("),
        or!(
            then!(Node::Quoted(b";"), Node::Call(Rule::Rest)),
            then!(Node::Call(Rule::Head), Node::Call(Rule::Next))
        ),
        Node::Quoted(b")"),
        Node::Call(Rule::Statement)
    ),
    then!(
        Node::Quoted(b"while"),
        Node::Call(Rule::Condition),
        Node::Call(Rule::Statement)
    ),
    then!(
        Node::Quoted(b"do"),
        Node::Call(Rule::Statement),
        Node::Quoted(b"while"),
        Node::Call(Rule::Condition),
        Node::Maybe(&Node::Quoted(b";"))
    ),
    then!(
        or!(Node::Quoted(b"continue"), Node::Quoted(b"break")),
        Node::Maybe(&then!(Node::Ahead(Guard::SameLine), Node::One(Test::Ident))),
        Node::Call(Rule::End)
    ),
    then!(
        Node::Quoted(b"return"),
        Node::Maybe(&then!(Node::Ahead(Guard::SameLine), Node::Call(Rule::Expr))),
        Node::Call(Rule::End)
    ),
    then!(
        Node::Quoted(b"throw"),
        Node::Ahead(Guard::SameLine),
        Node::Call(Rule::Expr),
        Node::Call(Rule::End)
    ),
    then!(
        Node::Quoted(b"switch"),
        Node::Call(Rule::Condition),
        Node::Quoted(b"{"),
        Node::Many(&Node::Call(Rule::Case)),
        Node::Quoted(b"}")
    ),
    then!(
        Node::Quoted(b"try"),
        Node::Call(Rule::Block),
        or!(
            then!(
                Node::Quoted(b"catch"),
                Node::Maybe(&then!(
                    Node::Quoted(b"("),
                    Node::Call(Rule::Binding),
                    Node::Quoted(b")")
                )),
                Node::Call(Rule::Block),
                Node::Maybe(&then!(Node::Quoted(b"finally"), Node::Call(Rule::Block)))
            ),
            then!(Node::Quoted(b"finally"), Node::Call(Rule::Block))
        )
    ),
    then!(Node::Quoted(b"debugger"), Node::Call(Rule::End)),
    then!(
        Node::Ahead(Guard::Label),
        Node::One(Test::Ident),
        Node::Quoted(b":"),
        Node::Call(Rule::Statement)
    ),
    then!(Node::Call(Rule::Expr), Node::Call(Rule::End))
));

static CONDITION: Node<'static> = then!(
    Node::Quoted(b"("),
    Node::Call(Rule::Expr),
    Node::Quoted(b")")
);

static REST: Node<'static> = then!(
    Node::Maybe(&Node::Call(Rule::Expr)),
    Node::Quoted(b";"),
    Node::Maybe(&Node::Call(Rule::Expr))
);

static HEAD: Node<'static> = Node::Headed(&or!(Node::Call(Rule::Vars), Node::Call(Rule::Expr)));

static NEXT: Node<'static> = or!(
    then!(Node::Quoted(b"of"), Node::Call(Rule::Assign)),
    then!(Node::Quoted(b"in"), Node::Call(Rule::Expr)),
    then!(Node::Quoted(b";"), Node::Call(Rule::Rest))
);

static CASE: Node<'static> = then!(
    or!(
        then!(Node::Quoted(b"case"), Node::Call(Rule::Expr)),
        Node::Quoted(b"default")
    ),
    Node::Quoted(b":"),
    Node::Many(&Node::Call(Rule::Statement))
);

static END: Node<'static> = or!(
    Node::Quoted(b";"),
    Node::Ahead(Guard::BeforeCurly),
    Node::Ahead(Guard::EndOfText),
    Node::Ahead(Guard::NewLine)
);

static EXPR: Node<'static> = then!(
    Node::Call(Rule::Assign),
    Node::Many(&then!(Node::Quoted(b","), Node::Call(Rule::Assign)))
);

static ASSIGN: Node<'static> = Node::Nested(&or!(
    then!(Node::Ahead(Guard::Arrow), Node::Call(Rule::Arrow)),
    then!(
        Node::Ahead(Guard::AsyncArrow),
        Node::Quoted(b"async"),
        Node::Call(Rule::Arrow)
    ),
    then!(
        Node::Quoted(b"yield"),
        Node::Maybe(&then!(
            Node::Ahead(Guard::SameLine),
            Node::Maybe(&Node::Quoted(b"*")),
            Node::Call(Rule::Assign)
        ))
    ),
    then!(
        Node::Call(Rule::Cond),
        Node::Maybe(&then!(Node::One(Test::AssignOp), Node::Call(Rule::Assign)))
    )
));

static ARROW: Node<'static> = then!(
    or!(Node::One(Test::Ident), Node::Call(Rule::Params)),
    Node::Quoted(b"=>"),
    or!(Node::Call(Rule::Block), Node::Call(Rule::Assign))
);

static COND: Node<'static> = then!(
    Node::Call(Rule::Bin),
    Node::Maybe(&then!(
        Node::Quoted(b"?"),
        Node::Call(Rule::Assign),
        Node::Quoted(b":"),
        Node::Call(Rule::Assign)
    ))
);

static BIN: Node<'static> = then!(
    Node::Call(Rule::Unary),
    Node::Many(&then!(Node::One(Test::BinOp), Node::Call(Rule::Unary)))
);

static UNARY: Node<'static> = Node::Nested(&or!(
    then!(
        or!(
            Node::Quoted(b"delete"),
            Node::Quoted(b"void"),
            Node::Quoted(b"typeof"),
            Node::Quoted(b"+"),
            Node::Quoted(b"-"),
            Node::Quoted(b"~"),
            Node::Quoted(b"!"),
            Node::Quoted(b"++"),
            Node::Quoted(b"--"),
            Node::Quoted(b"await")
        ),
        Node::Call(Rule::Unary)
    ),
    then!(Node::Ahead(Guard::PrivateIn), Node::One(Test::Private)),
    then!(
        Node::Call(Rule::Left),
        Node::Maybe(&then!(
            Node::Ahead(Guard::SameLine),
            or!(Node::Quoted(b"++"), Node::Quoted(b"--"))
        ))
    )
));

static LEFT: Node<'static> = then!(
    Node::Many(&then!(Node::Ahead(Guard::NewOperator), Node::Quoted(b"new"))),
    Node::Call(Rule::Primary),
    Node::Many(&Node::Call(Rule::Tail))
);

static TAIL: Node<'static> = or!(
    then!(
        Node::Quoted(b"."),
        or!(Node::One(Test::Name), Node::One(Test::Private))
    ),
    then!(
        Node::Quoted(b"["),
        Node::Call(Rule::Expr),
        Node::Quoted(b"]")
    ),
    Node::Call(Rule::Args),
    Node::Call(Rule::Template),
    then!(
        Node::Quoted(b"?."),
        or!(
            Node::One(Test::Name),
            Node::One(Test::Private),
            then!(
                Node::Quoted(b"["),
                Node::Call(Rule::Expr),
                Node::Quoted(b"]")
            ),
            Node::Call(Rule::Args),
            Node::Call(Rule::Template)
        )
    )
);

static ARGS: Node<'static> = then!(
    Node::Quoted(b"("),
    list!(Node::Call(Rule::Spread)),
    Node::Quoted(b")")
);

static SPREAD: Node<'static> = or!(
    then!(Node::Quoted(b"..."), Node::Call(Rule::Assign)),
    Node::Call(Rule::Assign)
);

static PRIMARY: Node<'static> = or!(
    Node::Call(Rule::Function),
    Node::Call(Rule::Class),
    Node::One(Test::Ident),
    Node::Quoted(b"this"),
    Node::Quoted(b"super"),
    Node::Quoted(b"null"),
    Node::Quoted(b"true"),
    Node::Quoted(b"false"),
    Node::One(Test::Number),
    Node::One(Test::Text),
    Node::One(Test::Regex),
    Node::Call(Rule::Template),
    then!(
        Node::Quoted(b"("),
        Node::Call(Rule::Expr),
        Node::Quoted(b")")
    ),
    then!(
        Node::Quoted(b"["),
        places!(Node::Call(Rule::Spread)),
        Node::Quoted(b"]")
    ),
    then!(
        Node::Quoted(b"{"),
        list!(Node::Call(Rule::Prop)),
        Node::Quoted(b"}")
    ),
    then!(
        Node::Quoted(b"new"),
        Node::Quoted(b"."),
        Node::One(Test::Name)
    ),
    then!(
        Node::Quoted(b"import"),
        or!(
            then!(Node::Quoted(b"."), Node::One(Test::Name)),
            then!(
                Node::Quoted(b"("),
                Node::Asks(&Node::Call(Rule::Assign)),
                Node::Maybe(&then!(Node::One(Test::Comma), Node::Call(Rule::Assign))),
                Node::Maybe(&Node::Quoted(b",")),
                Node::Quoted(b")")
            )
        )
    )
);

static PROP: Node<'static> = or!(
    then!(Node::Quoted(b"..."), Node::Call(Rule::Assign)),
    Node::Call(Rule::Short),
    then!(
        Node::Many(&Node::Call(Rule::Modifier)),
        Node::Maybe(&Node::Quoted(b"*")),
        Node::Call(Rule::Key),
        or!(
            then!(Node::Call(Rule::Params), Node::Call(Rule::Block)),
            then!(Node::Quoted(b":"), Node::Call(Rule::Assign))
        )
    )
);

static TEMPLATE: Node<'static> = or!(
    Node::One(Test::TemplateWhole),
    then!(
        Node::One(Test::TemplateHead),
        Node::Call(Rule::Expr),
        Node::Many(&then!(Node::One(Test::TemplateMiddle), Node::Call(Rule::Expr))),
        Node::One(Test::TemplateTail)
    )
);

/// What the rule says.
pub fn body(rule: Rule) -> &'static Node<'static>
    ensures { form_of result.now ≡ body_form rule }
{
    match rule {
        Rule::Module => &MODULE,
        Rule::Item => &ITEM,
        Rule::Import => &IMPORT,
        Rule::Clause => &CLAUSE,
        Rule::Star => &STAR,
        Rule::Named => &NAMED,
        Rule::Word => &WORD,
        Rule::With => &WITH,
        Rule::Export => &EXPORT,
        Rule::Vars => &VARS,
        Rule::Var => &VAR,
        Rule::Init => &INIT,
        Rule::Binding => &BINDING,
        Rule::Elem => &ELEM,
        Rule::BindProp => &BIND_PROP,
        Rule::Short => &SHORT,
        Rule::Key => &KEY,
        Rule::Function => &FUNCTION,
        Rule::Params => &PARAMS,
        Rule::Class => &CLASS,
        Rule::Member => &MEMBER,
        Rule::Modifier => &MODIFIER,
        Rule::Block => &BLOCK,
        Rule::Statement => &STATEMENT,
        Rule::Condition => &CONDITION,
        Rule::Rest => &REST,
        Rule::Head => &HEAD,
        Rule::Next => &NEXT,
        Rule::Case => &CASE,
        Rule::End => &END,
        Rule::Expr => &EXPR,
        Rule::Assign => &ASSIGN,
        Rule::Arrow => &ARROW,
        Rule::Cond => &COND,
        Rule::Bin => &BIN,
        Rule::Unary => &UNARY,
        Rule::Left => &LEFT,
        Rule::Tail => &TAIL,
        Rule::Args => &ARGS,
        Rule::Spread => &SPREAD,
        Rule::Primary => &PRIMARY,
        Rule::Prop => &PROP,
        Rule::Template => &TEMPLATE,
    }
}
