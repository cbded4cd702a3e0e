// Names to positions, and the types of expressions.
use crate::checking::*;
use crate::faults::*;
use crate::plans::*;
use reference_reading::names::find_in_text;
use reference_reading::questions::*;
use reference_reading::spans::*;
use reference_values::values::*;

// What a step stands behind: the tables, the columns, and the line that brought these.
#[derive(Clone, Copy)]
pub struct Before<'b> {
    pub tables: Tables<'b>,
    pub columns: &'b Columns,
    pub line: Span,
}

// A column, and where it stands.
#[derive(Clone, Copy)]
pub struct Place {
    pub at: usize,
    pub column: Column,
}

// A fault holds the word itself, so this is no `impl Display`.
fn spelling(operator: Operator) -> &'static str {
    match operator {
        Operator::Add => "+",
        Operator::Subtract => "-",
        Operator::Multiply => "*",
        Operator::Divide => "/",
        Operator::Remainder => "%",
        Operator::Equal => "==",
        Operator::Differ => "!=",
        Operator::Less => "<",
        Operator::AtMost => "<=",
        Operator::And => "and",
        Operator::Or => "or",
    }
}

fn compares(operator: Operator) -> bool {
    matches!(
        operator,
        Operator::Equal | Operator::Differ | Operator::Less | Operator::AtMost
    )
}

// The kinds of what postfix code has put on the stack so far.
#[derive(Drop)]
struct Kinds {
    stack: Vec<Kind>,
}

impl Kinds {
    fn pop(&mut self) -> Kind {
        self.stack.pop().unwrap_or(Kind::Num)
    }

    // A number on top, or the fault that it isn't one.
    fn number(&mut self, fault: Unsound) -> Result<(), Unsound> {
        match self.pop() {
            Kind::Num => Ok(()),
            Kind::Word => Err(fault),
        }
    }

    fn apply(&mut self, operator: Operator) -> Result<(), Unsound> {
        let word = spelling(operator);
        if compares(operator) {
            if self.pop() != self.pop() {
                return Err(Unsound::WantsOneType(word));
            }
        } else {
            self.number(Unsound::WantsNumbers(word))?;
            self.number(Unsound::WantsNumbers(word))?;
        }
        Ok(())
    }

    fn choose(&mut self) -> Result<Kind, Unsound> {
        let no = self.pop();
        let yes = self.pop();
        self.number(Unsound::WantsNumber("if"))?;
        if no != yes {
            return Err(Unsound::WantsOneType("else"));
        }
        Ok(yes)
    }
}

// Code over positions, and the kind of what it comes to.
#[derive(Drop)]
pub struct TypedCode {
    pub code: Vec<Instruction>,
    pub kind: Kind,
}

impl<'b> Before<'b> {
    pub fn place(self, name: Span) -> Result<Place, Unsound> {
        let columns = self.columns.all.as_slice();
        let text = self.tables.text;
        let at = find_in_text(text, columns, name.of(text)).ok_or(Unsound::NoColumn(
            name, self.line,
        ))?;
        Ok(Place {
            at,
            column: columns[at],
        })
    }

    // What an item does, and the kind of what it leaves on the stack.
    fn bind_item(self, kinds: &mut Kinds, item: Item) -> Result<(Instruction, Kind), Unsound> {
        match item {
            Item::Number(n) => Ok((Instruction::Push(Value::Number(n)), Kind::Num)),
            Item::Word(w) => Ok((Instruction::Push(Value::Word(w)), Kind::Word)),
            Item::Null(kind) => Ok((Instruction::Push(Value::Null), kind)),
            Item::Column(name) => {
                let place = self.place(name)?;
                Ok((Instruction::Column(place.at), place.column.kind))
            }
            Item::Apply(operator) => {
                kinds.apply(operator)?;
                Ok((Instruction::Apply(operator), Kind::Num))
            }
            Item::Not => {
                kinds.number(Unsound::WantsNumber("not"))?;
                Ok((Instruction::Not, Kind::Num))
            }
            Item::IsNull => {
                let _ = kinds.pop();
                Ok((Instruction::IsNull, Kind::Num))
            }
            Item::Choose => Ok((Instruction::Choose, kinds.choose()?)),
        }
    }

    // No `map`, as in `places`.
    pub fn bind(self, items: &[Item]) -> Result<TypedCode, Unsound> {
        let mut code = Vec::new(self.tables.heap);
        let mut kinds = Kinds {
            stack: Vec::new(self.tables.heap),
        };
        for item in items.iter() {
            let (instruction, kind) = self.bind_item(&mut kinds, *item)?;
            code.push(instruction)?;
            kinds.stack.push(kind)?;
        }
        let kind = kinds.pop();
        Ok(TypedCode { code, kind })
    }
}
