// A plan for a question, if it is sound.
use crate::binding::*;
use crate::checking::*;
use crate::faults::*;
use crate::plans::*;
use reference_reading::questions::*;
use reference_reading::spans::*;
use std::alloc::Global;

fn start(tables: Tables<'_>, source: &Source) -> Result<Plan, Unsound> {
    let table = tables.find(source.table)?;
    let columns = tables.columns_of(&tables.all[table])?;
    Ok(Plan {
        source: table,
        actions: Vec::new(tables.heap),
        columns,
    })
}

impl Plan {
    // One step more: what it does, and the columns behind it.
    fn extend(&mut self, tables: Tables<'_>, line: Span, step: &Step) -> Result<(), Unsound> {
        let before = Before {
            tables,
            columns: &self.columns,
            line,
        };
        let bound = before.fit(step)?;
        self.actions.push(bound.action)?;
        self.columns = bound.columns;
        Ok(())
    }
}

// The plan of a sound question whose tables lie on `border` pages, or what isn't sound.
pub fn plan(heap: Global, text: &[u8], question: &Question, border: u64) -> Result<Plan, NotSound> {
    let tables = Tables {
        heap,
        text,
        all: question.tables.as_slice(),
    };
    let source = &question.source;
    tables.check(border)?;
    let mut plan = start(tables, source).map_err(|fault| NotSound {
        line: source.line,
        fault,
    })?;
    let mut line = source.span;
    for statement in question.steps.iter() {
        plan.extend(tables, line, &statement.step)
            .map_err(|fault| NotSound {
                line: statement.line,
                fault,
            })?;
        line = statement.span;
    }
    Ok(plan)
}
