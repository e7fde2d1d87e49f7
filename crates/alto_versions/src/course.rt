ghost use Rattle.std.specs.Prelude.{◌≡◌, ◌<◌, ◌^◌, [], IfOk, length};
ghost use Rattle.std.specs.Arc.{arc_value};
ghost use Rattle.alto_rows.specs.Good.{AreGood};
ghost use Rattle.alto_rows.specs.Accepted.{Accepted};
ghost use Rattle.alto_book.specs.Acceptance.{with_batch};
ghost use Rattle.alto_book.specs.Book.{Book, rows_of};
ghost use Rattle.alto_book.specs.Legal.{IsLegal};
ghost use Rattle.alto_versions.specs.Course.{Follows};
ghost use Rattle.alto_versions.specs.Front.{StandsFor};

use crate::followed::Followed;
use crate::front::Front;
use crate::graphs::graphs_after;
use crate::resources::resources_of;
use crate::tables::tables_of;
use crate::texts::texts_of;
use alto_rows::{Resource, RowStore, Write};
use cost_tables::CostTables;
use std::alloc::{AllocError, Global};
use std::marker::Model;
use std::sync::Arc;

/// A version in the making: all of it but the range tables, the costs by source and the texts, which cost much and are
/// asked for at the end alone. So many batches in a row are gone through as fast as their rows. A contract sees the
/// number, the rows and the graphs.
#[derive(Drop)]
pub struct Course<R: RowStore> {
    n: u64,
    rows: Arc<R>,
    graphs: Vec<(Resource, Arc<Followed<R>>)>,
}

impl<R: RowStore> Model for Course<R> {
    ghost use Rattle.std.specs.Arc.{arc_value};
    ghost use Rattle.alto_versions.specs.Course.{CourseData};
    ghost use Rattle.alto_versions.specs.Graphs.{entries};

    ghost Value = { CourseData };

    ghost view = { λ course. record {
      n = course.n;
      rows = R.rows (arc_value course.rows);
      graphs = entries course.graphs.items;
    } };
}

impl<R: RowStore> Course<R> {
    /// The course of a book that has no batches but those that led to its base, so many, and begins with these rows.
    pub fn new(alloc: Global, number: u64, rows: Arc<R>) -> Result<Course<R>, AllocError>
        requires { AreGood (R.rows (arc_value rows)) }
        ensures { IfOk result (λ course. (book : Book) → book.batches ≡ [] → length book.receipts ≡ number
            → R.rows (arc_value rows) ≡ book.base → Follows course book) }
    {
        let none = Vec::new(alloc);
        let resources = resources_of(alloc, &*rows)?;
        let graphs = graphs_after(alloc, &none, &[], &rows, resources, &[], Vec::new(alloc))?;
        Ok(Course {
            n: number,
            rows,
            graphs,
        })
    }

    /// The rows.
    pub fn rows(&self) -> &R
        ensures { R.rows result.now ≡ self.now.rows }
    {
        &self.rows
    }

    /// The course with one batch more, whose writes led to these rows.
    ///
    /// Costs two searches for each declared resource, whose graph is shared, and a look at each write for each resource
    /// that the batch gave a number.
    pub fn with(&self, alloc: Global, rows: R, writes: &[Write]) -> Result<Course<R>, AllocError>
        requires room { self.now.n < 2 ^ 63 }
        requires good { AreGood (R.rows rows) }
        ensures { IfOk result (λ course. (book : Book) (batch : Accepted) → IsLegal book
            → IsLegal (with_batch book batch) → R.rows rows ≡ rows_of (with_batch book batch)
            → writes.now ≡ batch.writes → Follows self.now book → Follows course (with_batch book batch)) }
    {
        let rows = Arc::new(alloc, rows)?;
        let resources = resources_of(alloc, &*rows)?;
        let graphs = graphs_after(
            alloc,
            &self.graphs,
            &[],
            &rows,
            resources,
            writes,
            Vec::new(alloc),
        )?;
        Ok(Course {
            n: self.n + 1,
            rows,
            graphs,
        })
    }

    /// The version that it has come to: each declared network gets its range table, each declared metric its costs by
    /// source, and each declared resource the text of its document.
    pub fn into_front(self, alloc: Global) -> Result<Front<R>, AllocError>
        requires good { AreGood self.rows }
        ensures { IfOk result (λ front. (book : Book) → Follows self book → StandsFor front book) }
    {
        let Course { n, rows, graphs } = self;
        let tables = tables_of(alloc, &*rows)?;
        let resources = resources_of(alloc, &*rows)?;
        let costs = CostTables::of(alloc, &*rows, &resources)?;
        let texts = texts_of(alloc, &*rows, &costs)?;
        Ok(Front {
            n,
            rows,
            graphs,
            tables,
            costs,
            texts,
        })
    }
}
