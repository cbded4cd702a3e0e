// Does a step fit the columns before it, and which columns stand behind it.
use crate::binding::*;
use crate::checking::*;
use crate::faults::*;
use crate::plans::*;
use reference_reading::names::find_in_text;
use reference_reading::questions::*;
use reference_reading::spans::*;

// What an aggregate does, and the kind of what it comes to.
#[derive(Clone, Copy)]
struct Folding {
    aggregation: Aggregation,
    kind: Kind,
}

impl<'b> Before<'b> {
    // What a step does, where it leaves the columns as they are.
    fn same_columns(self, action: Action) -> Result<Bound, Unsound> {
        let columns = Columns {
            all: self.columns.all.clone()?,
        };
        Ok(Bound { action, columns })
    }

    // What a step does that brings columns.
    fn new_columns(self, columns: Vec<Column>, action: Action) -> Result<Bound, Unsound> {
        let columns = Columns::new(self.tables.text, columns)?;
        Ok(Bound { action, columns })
    }

    fn keep(self, items: &[Item]) -> Result<Bound, Unsound> {
        let bound = self.bind(items)?;
        if bound.kind != Kind::Num {
            return Err(Unsound::WantsNumber("keep"));
        }
        self.same_columns(Action::Keep(bound.code))
    }

    fn make(self, make: &Make) -> Result<Bound, Unsound> {
        let bound = self.bind(make.code.as_slice())?;
        let mut columns = self.columns.all.clone()?;
        columns.push(Column {
            name: make.name,
            kind: bound.kind,
        })?;
        self.new_columns(columns, Action::Make(bound.code))
    }

    // Columns by their names, and where they stand. No `map`, since two lists grow.
    fn places(self, names: &[Span]) -> Result<(Vec<Column>, Vec<usize>), Unsound> {
        let mut columns = Vec::new(self.tables.heap);
        let mut positions = Vec::new(self.tables.heap);
        for name in names.iter() {
            let place = self.place(*name)?;
            columns.push(place.column)?;
            positions.push(place.at)?;
        }
        Ok((columns, positions))
    }

    fn pick(self, names: &[Span]) -> Result<Bound, Unsound> {
        let (columns, positions) = self.places(names)?;
        self.new_columns(columns, Action::Pick(positions))
    }

    fn join(self, join: Join) -> Result<Bound, Unsound> {
        let text = self.tables.text;
        let table = self.tables.find(join.table)?;
        let others = self.tables.columns_of(&self.tables.all[table])?.all;
        let place = self.place(join.column)?;
        let other_column = find_in_text(text, others.as_slice(), join.other_column.of(text)).ok_or(
            Unsound::NotInTable(join.other_column, join.table),
        )?;
        if others[other_column].kind != place.column.kind {
            return Err(Unsound::TypesDiffer(join.column, join.other_column));
        }
        let mut columns = self.columns.all.clone()?;
        columns.extend_from_slice(others.as_slice())?;
        let action = Action::Join(JoinOn {
            table,
            column: place.at,
            other_column,
            other_width: others.len(),
            stays: join.stays,
        });
        self.new_columns(columns, action)
    }

    fn of_column<F: FnOnce(usize) -> Aggregation>(
        self,
        name: Span,
        of: F,
    ) -> Result<Folding, Unsound>
        requires { F.IsAlwaysCallable of }
    {
        let place = self.place(name)?;
        Ok(Folding {
            aggregation: of(place.at),
            kind: place.column.kind,
        })
    }

    fn aggregate(self, aggregate: Aggregate<Span>) -> Result<Folding, Unsound> {
        match aggregate {
            Aggregate::Count => Ok(Folding {
                aggregation: Aggregate::Count,
                kind: Kind::Num,
            }),
            Aggregate::Sum(name) => {
                let sum = self.of_column(name, Aggregate::Sum)?;
                match sum.kind {
                    Kind::Num => Ok(sum),
                    Kind::Word => Err(Unsound::SumOfWords(name)),
                }
            }
            Aggregate::Min(name) => self.of_column(name, Aggregate::Min),
            Aggregate::Max(name) => self.of_column(name, Aggregate::Max),
            Aggregate::First(name) => self.of_column(name, Aggregate::First),
        }
    }

    // No `map`, as in `places`.
    fn group(self, group: &Group) -> Result<Bound, Unsound> {
        let (mut columns, keys) = self.places(group.keys.as_slice())?;
        let mut aggregations = Vec::new(self.tables.heap);
        for named in group.aggregates.iter() {
            let folding = self.aggregate(named.aggregate)?;
            aggregations.push(folding.aggregation)?;
            columns.push(Column {
                name: named.name,
                kind: folding.kind,
            })?;
        }
        self.new_columns(columns, Action::Group(Grouping { keys, aggregations }))
    }

    fn order(self, keys: &[SortKey<Span>]) -> Result<Bound, Unsound> {
        let sort_columns: Vec<SortColumn> = keys
            .iter()
            .map(|key| -> Result<SortColumn, Unsound> {
                Ok(SortKey {
                    column: self.place(key.column)?.at,
                    down: key.down,
                })
            })
            .try_collect(self.tables.heap)?;
        self.same_columns(Action::Order(sort_columns))
    }

    // Whether these are the columns, by name and kind.
    fn has_columns(self, others: &[Column]) -> bool {
        let text = self.tables.text;
        let columns = self.columns.all.as_slice();
        columns.len() == others.len()
            && columns.iter().zip(others.iter()).all(|(column, other)| {
                column.name.same(other.name, text) && column.kind == other.kind
            })
    }

    fn unite(self, name: Span) -> Result<Bound, Unsound> {
        let table = self.tables.find(name)?;
        let others = self.tables.columns_of(&self.tables.all[table])?;
        if !self.has_columns(others.all.as_slice()) {
            return Err(Unsound::OtherColumns(name, self.line));
        }
        self.same_columns(Action::Unite(table))
    }

    pub fn fit(self, step: &Step) -> Result<Bound, Unsound> {
        match step {
            Step::Keep(items) => self.keep(items.as_slice()),
            Step::Make(made) => self.make(made),
            Step::Pick(names) => self.pick(names.as_slice()),
            Step::Join(joined) => self.join(*joined),
            Step::Group(grouped) => self.group(grouped),
            Step::Order(keys) => self.order(keys.as_slice()),
            Step::Take(n) => self.same_columns(Action::Take(*n as usize)),
            Step::Skip(n) => self.same_columns(Action::Skip(*n as usize)),
            Step::Unite(name) => self.unite(*name),
            Step::Distinct => self.same_columns(Action::Distinct),
        }
    }
}
