ghost use Rattle.std.specs.Prelude.{◌≡◌, ◌<◌, ◌^◌, IfOk, IfSome, option_map};
ghost use Rattle.std.specs.Arc.{arc_value};
ghost use Rattle.alto_names.specs.Name.{IsNetName};
ghost use Rattle.alto_rows.specs.Good.{AreGood};
ghost use Rattle.alto_rows.specs.Rows.{after};
ghost use Rattle.cost_tables.specs.Tables.{AreCostsOf};
ghost use Rattle.doc_pieces.specs.Pieces.{text_of};
ghost use Rattle.alto_book.specs.Book.{Book};
ghost use Rattle.alto_book.specs.Legal.{IsLegal};
ghost use Rattle.alto_book.specs.Acceptance.{with_batch};
ghost use Rattle.alto_versions.specs.Front.{StandsFor, graph_in, table_in};
ghost use Rattle.alto_versions.specs.Texts.{declared_text};

use crate::followed::Followed;
use crate::graphs::{graphs_after, is_same};
use crate::resources::{copies_of, resources_of};
use crate::tables::{table_of, tables_after};
use crate::texts::{TextsWithKeys, text_of, texts_after};
use alto_names::NetName;
use alto_rows::{Batch, Resource, RowStore};
use cost_tables::CostTables;
use doc_pieces::Pieces;
use pid_prefix::RangeTable;
use std::alloc::{AllocError, Global};
use std::marker::Model;
use std::sync::Arc;
use tips_graph::Graph;

/// A version: the rows after some number of batches, the updates graphs that they have led to, the range tables of
/// their prefixes, their costs by source, and the texts of their documents. It never changes, and readers share it. A
/// contract sees the number, the rows, the graphs, and the prefixes of the tables. The rows are good, and the costs and
/// the texts are those of the rows.
#[derive(Drop)]
pub struct Front<R: RowStore> {
    /// How many batches led to it.
    pub n: u64,
    /// The rows.
    pub rows: Arc<R>,
    /// The updates graph of each declared resource, in the order of resources.
    pub graphs: Vec<(Resource, Arc<Followed<R>>)>,
    /// The range table of each declared network, in the order of their names.
    pub tables: Vec<(NetName, Arc<RangeTable>)>,
    /// The costs of each declared metric, by source.
    pub(crate) costs: CostTables,
    /// The text of the document of each declared resource, in pieces, in the order of resources.
    pub(crate) texts: Vec<(Resource, Arc<Pieces>)>,
}

impl<R: RowStore> Model for Front<R> {
    ghost use Rattle.std.specs.Arc.{arc_value};
    ghost use Rattle.cost_tables.specs.Tables.{AreCostsOf};
    ghost use Rattle.alto_versions.specs.Front.{Version};
    ghost use Rattle.alto_versions.specs.Graphs.{entries};
    ghost use Rattle.alto_versions.specs.Texts.{AreTextsOf};

    ghost Value = { Version };

    ghost view = { λ front. record {
      n = front.n;
      rows = R.rows (arc_value front.rows);
      graphs = entries front.graphs.items;
      tables = entries front.tables.items;
    } };

    ghost invariant = { λ front. AreTextsOf (R.rows (arc_value front.rows)) (entries front.texts.items)
        × AreCostsOf (R.rows (arc_value front.rows)) front.costs };
}

impl<R: RowStore> Front<R> {
    /// The updates graph of a resource, where it is kept. Linear in the number of those that are.
    pub fn graph(&self, of: &Resource) -> Option<&Graph<R>>
        ensures { option_map (λ graph. graph.now) result ≡ graph_in self.now.graphs of.now }
    {
        Some(self.followed(of)?.graph())
    }

    /// The same, with the texts that are kept of its numbers.
    pub fn followed(&self, of: &Resource) -> Option<&Followed<R>>
        ensures { option_map (λ followed. followed.now) result ≡ graph_in self.now.graphs of.now }
    {
        for (resource, graph) in &self.graphs {
            if is_same(of, resource) {
                return Some(graph);
            }
        }
        None
    }

    /// The range table of a network's prefixes, where the network is declared. Linear in the number of networks.
    pub fn table(&self, net: &NetName) -> Option<&RangeTable>
        ensures { option_map (λ table. table.now) result ≡ table_in self.now.tables net.now }
    {
        self.table_named(net.as_bytes())
    }

    /// The range table of the network that a text names, where one is declared that it names. Linear in the number of
    /// networks.
    pub fn table_named(&self, text: &[u8]) -> Option<&RangeTable>
        ensures table { option_map (λ table. table.now) result ≡ table_in self.now.tables text.now }
        ensures name { IfSome result (λ _. IsNetName text.now) }
    {
        let table = table_of(&self.tables, text)?;
        Some(table)
    }

    /// The costs of the rows, by source.
    pub fn costs(&self) -> &CostTables
        ensures { AreCostsOf self.now.rows result.now }
    {
        &self.costs
    }

    /// The pieces of the text of a resource's document, where the resource is declared. One pass over the declared
    /// resources.
    pub fn text(&self, of: &Resource) -> Option<&Arc<Pieces>>
        ensures { option_map (λ pieces. text_of (arc_value pieces.now)) result ≡ declared_text self.now.rows of.now }
    {
        text_of(&self.texts, of)
    }

    /// The version after one batch more. It shares what the batch left.
    ///
    /// Costs what the store's `with` costs, two searches for each declared resource, a look at each write, twice for
    /// each declared resource and once for each network and for each metric, a copy of each key for each resource that
    /// it touches, a range table for each network whose prefixes it wrote, for each map that it changed a walk over the
    /// groups and the writing of those that it touched, and for each metric of which it wrote a cost a walk over the
    /// sources, and for each source of which it wrote one a copy of its costs or a walk over its rows.
    pub fn with(&self, alloc: Global, batch: &Batch) -> Result<Front<R>, AllocError>
        requires room { self.now.n < 2 ^ 63 }
        requires good { AreGood (after self.now.rows batch.now.writes) }
        ensures { IfOk result (λ version. (book : Book) → IsLegal book → IsLegal (with_batch book batch.now)
            → StandsFor self.now book → StandsFor version (with_batch book batch.now)) }
    {
        let rows = Arc::new(alloc, self.rows.with(alloc, &batch.writes)?)?;
        let resources = resources_of(alloc, &*rows)?;
        let of_texts = copies_of(alloc, &resources)?;
        let of_graphs = copies_of(alloc, &resources)?;
        let costs = self.costs.after(alloc, &*rows, &resources, &batch.writes)?;
        let renewed = texts_after(alloc, &self.texts, &*rows, &costs, of_texts, &batch.writes)?;
        let TextsWithKeys { texts, keys } = renewed;
        let graphs = graphs_after(
            alloc,
            &self.graphs,
            &texts,
            &rows,
            of_graphs,
            &batch.writes,
            keys,
        )?;
        let tables = tables_after(alloc, &self.tables, &*rows, &batch.writes)?;
        Ok(Front {
            n: self.n + 1,
            rows,
            graphs,
            tables,
            costs,
            texts,
        })
    }
}
