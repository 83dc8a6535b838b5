//! From tokens to what they mean, one token after another.

ghost use Rattle.std.specs.Prelude.{◌≡◌, ◌≤◌, ◌<◌, ◌∷◌, ◌+◌, ℕ, [], IfOk, MatchOption};
ghost use Rattle.filter.specs.Reading.{Steps, StepsInside, Continues};
ghost use Rattle.filter.specs.Meaning.{conjunction};
ghost use Rattle.filter.specs.Machine.{start, begin, follow, closed, continues, inside, with_literal, past_name, step, end, is_new, depth_of, disjunction_in, joined, negations, new_group, is_none_left};

use crate::literal::{Literal, Literals};
use crate::meaning::{
    Claim, Meaning, conjunction, disjunction, negation, negation_if, test_meaning,
};
use crate::token::{Form, Token};
use column_types::{Op, Pred, Schema};
use outside::{Memory, Text};
use sqlite_items::Items;
use std::alloc::Global;
use std::marker::Model;

/// What stands on the left in a group that isn't closed, up to where the parser is.
#[derive(Drop)]
pub struct Group {
    /// The operands joined by OR so far, where an OR stands behind them.
    pub or: Option<Meaning>,
    /// The operands joined by AND so far, where an AND stands behind them.
    pub and: Option<Meaning>,
    /// The NOTs before the present operand.
    pub nots: u32,
    /// How deep the group stands: the `(` and NOT around it.
    pub depth: u32,
}

/// The groups around the present one. Contracts see their list, from the innermost one out.
#[derive(Drop)]
pub struct Groups {
    groups: Vec<Group>,
}

impl Model for Groups {
    ghost use Rattle.std.specs.Prelude.{List, reverse};
    ghost use Rattle.filter.specs.declared.parser.Group.{Group};

    ghost Value = { List Group };

    ghost use Rattle.std.specs.Coded.{codes};
    ghost use Rattle.column_types.specs.contracts.predicate.Pred as pred;

    ghost coded = { Prim.hlevel (codes, pred.the_row.coded) };

    ghost view = { λ g. reverse g.groups.items };
}

impl Groups {
    /// No groups.
    fn new(alloc: Global) -> Groups
        ensures { result ≡ [] }
    {
        Groups {
            groups: Vec::new(alloc),
        }
    }

    /// Puts a group inside these.
    fn push(&mut self, group: Group) -> Result<(), Memory>
        ensures { IfOk result (λ _. self.new ≡ group ∷ self.old) }
    {
        self.groups.push(group)?;
        Ok(())
    }

    /// Takes the innermost group.
    fn pop(&mut self) -> Option<Group>
        ensures { MatchOption result (self.old ≡ []) (λ group. self.old ≡ group ∷ self.new) }
    {
        self.groups.pop()
    }

    fn is_empty(&self) -> bool
        ensures { result ≡ is_none_left self.now }
    {
        self.groups.is_empty()
    }
}

/// What a literal is for.
#[derive(Drop)]
pub enum Target {
    /// It is what the column is compared with.
    Compare(Op),
    /// It is in the list of IN, or where `negated` of NOT IN, behind these.
    Among { negated: bool, values: Literals },
}

/// Where in its grammar a restriction was left.
#[derive(Drop)]
pub enum Place {
    /// An operand is to follow.
    Operand,
    /// An operand has ended, and means this.
    Done(Meaning),
    /// The name of a column, which may go on as a test.
    Column(Text),
    /// IS, or where `negated` IS NOT, is to go on.
    Is {
        column: Text,
        negated: bool,
    },
    /// IN is to follow behind NOT.
    Not(Text),
    /// The `(` of IN, or where `negated` of NOT IN, is to follow.
    In {
        column: Text,
        negated: bool,
    },
    /// A literal is to follow.
    Literal {
        column: Text,
        target: Target,
    },
    /// A string is to follow, behind DATE or TIMESTAMP.
    Worded {
        column: Text,
        target: Target,
        form: Form,
    },
    /// `,` or `)` is to follow behind a literal of a list.
    Listed {
        column: Text,
        negated: bool,
        values: Literals,
    },
}

/// A restriction up to some token.
#[derive(Drop)]
pub struct State {
    /// The groups around the present one.
    pub groups: Groups,
    /// The present group.
    pub group: Group,
    pub place: Place,
}

/// Why a token is not taken.
#[derive(Drop)]
pub enum StepFault {
    /// Want of memory.
    Memory,
    /// The token can't follow.
    Refused,
}

impl From<Memory> for StepFault {
    ghost use Rattle.std.specs.Prelude.{◌≡◌};
    ghost use Rattle.filter.specs.declared.parser.StepFault.TheVariants.{Memory};

    ghost from_gives = { λ _ e. e ≡ Memory };

    fn from(_want: Memory) -> StepFault {
        StepFault::Memory
    }
}

/// A group with nothing in it yet, in so many parentheses and NOTs.
fn new_group(depth: u32) -> Group
    ensures { result ≡ new_group depth }
{
    Group {
        or: None,
        and: None,
        nots: 0,
        depth,
    }
}

/// The state before the first token.
pub fn start(alloc: Global) -> State
    ensures { result ≡ start }
{
    State {
        groups: Groups::new(alloc),
        group: new_group(0),
        place: Place::Operand,
    }
}

/// A meaning behind so many NOTs.
fn negations(alloc: Global, nots: u32, meaning: Meaning) -> Result<Meaning, Memory>
    ensures { IfOk result (λ m. m ≡ negations nots meaning) }
{
    let mut meaning = meaning;
    for _ in 0..nots {
        meaning = negation(alloc, meaning)?;
    }
    Ok(meaning)
}

/// The operands joined by AND, up to the last.
fn conjunction_in(
    alloc: Global,
    and: Option<Meaning>,
    nots: u32,
    last: Meaning,
) -> Result<Meaning, Memory>
    ensures { IfOk result (λ m. m ≡ joined conjunction and (negations nots last)) }
{
    let last = negations(alloc, nots, last)?;
    match and {
        Some(left) => conjunction(alloc, left, last),
        None => Ok(last),
    }
}

/// All of a group, whose last operand has ended.
fn disjunction_in(alloc: Global, group: Group, last: Meaning) -> Result<Meaning, Memory>
    ensures { IfOk result (λ m. m ≡ disjunction_in group last) }
{
    let Group {
        or,
        and,
        nots,
        depth: _,
    } = group;
    let last = conjunction_in(alloc, and, nots, last)?;
    match or {
        Some(left) => disjunction(alloc, left, last),
        None => Ok(last),
    }
}

/// Takes a token where an operand begins.
#[tactic(auto, unfolding(crate::specs::Machine::begin))]
fn begin(groups: Groups, group: Group, token: Token) -> Result<State, StepFault>
    requires { group.depth + group.nots ≤ 64 }
    ensures { Steps (begin groups group token) result }
{
    let mut groups = groups;
    let mut group = group;
    match token {
        Token::Not => {
            group.nots += 1;
            Ok(State {
                groups,
                group,
                place: Place::Operand,
            })
        }
        Token::Open => {
            let depth = group.depth + group.nots + 1;
            groups.push(group)?;
            Ok(State {
                groups,
                group: new_group(depth),
                place: Place::Operand,
            })
        }
        Token::Name { name, form: _ } => Ok(State {
            groups,
            group,
            place: Place::Column(name),
        }),
        _ => Err(StepFault::Refused),
    }
}

/// Takes AND, OR or `)` behind an operand.
#[tactic(auto, unfolding(crate::specs::Machine::follow))]
fn follow(
    alloc: Global,
    groups: Groups,
    group: Group,
    last: Meaning,
    token: Token,
) -> Result<State, StepFault>
    ensures { Steps (follow groups group last token) result }
{
    match token {
        Token::And => {
            let Group {
                or,
                and,
                nots,
                depth,
            } = group;
            let and = conjunction_in(alloc, and, nots, last)?;
            let group = Group {
                or,
                and: Some(and),
                nots: 0,
                depth,
            };
            Ok(State {
                groups,
                group,
                place: Place::Operand,
            })
        }
        Token::Or => {
            let depth = group.depth;
            let or = disjunction_in(alloc, group, last)?;
            let group = Group {
                or: Some(or),
                and: None,
                nots: 0,
                depth,
            };
            Ok(State {
                groups,
                group,
                place: Place::Operand,
            })
        }
        Token::Close => close(alloc, groups, group, last),
        _ => Err(StepFault::Refused),
    }
}

/// Takes the `)` of the present group.
fn close(alloc: Global, groups: Groups, group: Group, last: Meaning) -> Result<State, StepFault>
    ensures { Steps (closed groups group last) result }
{
    let mut groups = groups;
    let Some(outer) = groups.pop() else {
        return Err(StepFault::Refused);
    };
    let meaning = disjunction_in(alloc, group, last)?;
    Ok(State {
        groups,
        group: outer,
        place: Place::Done(meaning),
    })
}

/// Where the name of a column goes on as a test. Where it doesn't, both are given back.
#[tactic(auto, unfolding(crate::specs::Machine::continues))]
fn continues(column: Text, token: Token) -> Result<Place, (Text, Token)>
    ensures { Continues column token result }
{
    match token {
        Token::Compare(op) => Ok(Place::Literal {
            column,
            target: Target::Compare(op),
        }),
        Token::Is => Ok(Place::Is {
            column,
            negated: false,
        }),
        Token::Not => Ok(Place::Not(column)),
        Token::In => Ok(Place::In {
            column,
            negated: false,
        }),
        token => Err((column, token)),
    }
}

/// Puts a literal where it is wanted.
fn with_literal(
    alloc: Global,
    schema: &Schema,
    column: Text,
    target: Target,
    literal: Literal,
) -> Result<Place, Memory>
    ensures { IfOk result (λ place. place ≡ with_literal schema.now column target literal) }
{
    match target {
        Target::Compare(op) => {
            let claim = Claim::Compared(op, literal);
            Ok(Place::Done(test_meaning(alloc, schema, column, &claim)?))
        }
        Target::Among { negated, values } => {
            let mut values = values;
            values.push(literal)?;
            Ok(Place::Listed {
                column,
                negated,
                values,
            })
        }
    }
}

/// Takes a literal, or the DATE or TIMESTAMP of one.
#[tactic(auto, unfolding(crate::specs::Machine::inside, crate::specs::Machine::literal_token, crate::specs::Machine::word_form))]
fn at_literal(
    alloc: Global,
    schema: &Schema,
    column: Text,
    target: Target,
    token: Token,
) -> Result<Place, StepFault>
    ensures { StepsInside (inside schema.now (Place.Literal column target) token) result }
{
    let literal = match token {
        Token::Integer(n) => Literal::Integer(n),
        Token::Str(text) => Literal::Str(text),
        Token::True => Literal::Bool(true),
        Token::False => Literal::Bool(false),
        Token::Name {
            name: _,
            form: Form::Date,
        } => {
            return Ok(Place::Worded {
                column,
                target,
                form: Form::Date,
            });
        }
        Token::Name {
            name: _,
            form: Form::Timestamp,
        } => {
            return Ok(Place::Worded {
                column,
                target,
                form: Form::Timestamp,
            });
        }
        _ => return Err(StepFault::Refused),
    };
    Ok(with_literal(alloc, schema, column, target, literal)?)
}

/// Takes the string behind DATE or TIMESTAMP.
#[tactic(auto, unfolding(crate::specs::Machine::inside, crate::specs::Machine::worded))]
fn at_string(
    alloc: Global,
    schema: &Schema,
    column: Text,
    target: Target,
    form: Form,
    token: Token,
) -> Result<Place, StepFault>
    ensures { StepsInside (inside schema.now (Place.Worded column target form) token) result }
{
    let literal = match (form, token) {
        (Form::Date, Token::Str(text)) => Literal::Date(text),
        (Form::Timestamp, Token::Str(text)) => Literal::Timestamp(text),
        _ => return Err(StepFault::Refused),
    };
    Ok(with_literal(alloc, schema, column, target, literal)?)
}

/// Goes on behind IS, or where `negated` behind IS NOT.
#[tactic(auto, unfolding(crate::specs::Machine::inside))]
fn after_is(
    alloc: Global,
    schema: &Schema,
    column: Text,
    negated: bool,
    token: Token,
) -> Result<Place, StepFault>
    ensures { StepsInside (inside schema.now (Place.Is column negated) token) result }
{
    match token {
        Token::Not if !negated => Ok(Place::Is {
            column,
            negated: true,
        }),
        Token::Null => {
            let meaning = test_meaning(alloc, schema, column, &Claim::IsNull)?;
            Ok(Place::Done(negation_if(alloc, negated, meaning)?))
        }
        _ => Err(StepFault::Refused),
    }
}

/// Goes on behind a literal of a list.
#[tactic(auto, unfolding(crate::specs::Machine::inside))]
fn after_value(
    alloc: Global,
    schema: &Schema,
    column: Text,
    negated: bool,
    values: Literals,
    token: Token,
) -> Result<Place, StepFault>
    ensures { StepsInside (inside schema.now (Place.Listed column negated values) token) result }
{
    match token {
        Token::Comma => Ok(Place::Literal {
            column,
            target: Target::Among { negated, values },
        }),
        Token::Close => {
            let claim = Claim::Among(values);
            let meaning = test_meaning(alloc, schema, column, &claim)?;
            Ok(Place::Done(negation_if(alloc, negated, meaning)?))
        }
        _ => Err(StepFault::Refused),
    }
}

/// Takes a token inside a test, behind its name.
#[tactic(auto, unfolding(crate::specs::Machine::inside))]
fn inside(alloc: Global, schema: &Schema, place: Place, token: Token) -> Result<Place, StepFault>
    ensures { StepsInside (inside schema.now place token) result }
{
    match place {
        Place::Is { column, negated } => after_is(alloc, schema, column, negated, token),
        Place::Not(column) => match token {
            Token::In => Ok(Place::In {
                column,
                negated: true,
            }),
            _ => Err(StepFault::Refused),
        },
        Place::In { column, negated } => match token {
            Token::Open => Ok(Place::Literal {
                column,
                target: Target::Among {
                    negated,
                    values: Items::new(alloc),
                },
            }),
            _ => Err(StepFault::Refused),
        },
        Place::Literal { column, target } => at_literal(alloc, schema, column, target, token),
        Place::Worded {
            column,
            target,
            form,
        } => at_string(alloc, schema, column, target, form, token),
        Place::Listed {
            column,
            negated,
            values,
        } => after_value(alloc, schema, column, negated, values, token),
        Place::Operand | Place::Done(_) | Place::Column(_) => Err(StepFault::Refused),
    }
}

/// Takes one token more.
#[tactic(auto, unfolding(crate::specs::Machine::step))]
pub fn step(alloc: Global, schema: &Schema, state: State, token: Token) -> Result<State, StepFault>
    requires { depth_of state ≤ 64 }
    ensures { Steps (step schema.now state token) result }
{
    let State {
        groups,
        group,
        place,
    } = state;
    match place {
        Place::Operand => begin(groups, group, token),
        Place::Done(last) => follow(alloc, groups, group, last, token),
        Place::Column(column) => past_name(alloc, schema, groups, group, column, token),
        place => {
            let place = inside(alloc, schema, place, token)?;
            Ok(State {
                groups,
                group,
                place,
            })
        }
    }
}

/// Takes a token behind the name of a column.
fn past_name(
    alloc: Global,
    schema: &Schema,
    groups: Groups,
    group: Group,
    column: Text,
    token: Token,
) -> Result<State, StepFault>
    ensures { Steps (past_name schema.now (record { groups = groups; group = group; place = Place.Operand }) column (continues column token) token) result }
{
    match continues(column, token) {
        Ok(place) => Ok(State {
            groups,
            group,
            place,
        }),
        Err((column, token)) => {
            let last = test_meaning(alloc, schema, column, &Claim::Bare)?;
            follow(alloc, groups, group, last, token)
        }
    }
}

/// Whether nothing stands in the group.
fn is_new(group: &Group) -> bool
    ensures { result ≡ is_new group.now }
{
    group.or.is_none() && group.and.is_none() && group.nots == 0
}

/// What a text means that ends here. None is given where it can't end here.
#[tactic(auto, unfolding(crate::specs::Machine::end, crate::specs::Machine::operand_at))]
pub fn end(alloc: Global, schema: &Schema, state: State) -> Result<Option<Meaning>, Memory>
    ensures { IfOk result (λ meaning. meaning ≡ end schema.now state) }
{
    let State {
        groups,
        group,
        place,
    } = state;
    if !groups.is_empty() {
        return Ok(None);
    }
    let last = match place {
        Place::Operand => return Ok(if is_new(&group) {
            Some(Ok(Pred::All))
        } else {
            None
        }),
        Place::Done(last) => last,
        Place::Column(column) => test_meaning(alloc, schema, column, &Claim::Bare)?,
        _ => return Ok(None),
    };
    Ok(Some(disjunction_in(alloc, group, last)?))
}
