// Where an expression or a query stands.
ghost use Rattle.std.specs.Prelude.{◌≡◌};
ghost use Rattle.std.specs.Prelude.{IfOk};
ghost use Rattle.std.specs.Prelude.{Some, None};
ghost use Rattle.bind_query.specs.Scopes.{clause, entered, in_text, in_view, within_aggregate, without_results};
ghost use Rattle.sql_bound.specs.Answers.{OnlyMem};

use bind_scope::copied_text;
use eng_catalog::Catalog;
use eng_entry::Entry;
use eng_value::{Cause, Text};
use sql_bound::{Allowed, HostFacts, Standing};
use sql_tree::ResultColumn;
use std::marker::Model;

/// All that may stand in a statement.
pub const IN_STATEMENT: Allowed = Allowed {
    hosts: true,
    queries: true,
    columns: true,
    parameters: true,
    raises: false,
};

/// Where an expression or a query stands: the text; the view or trigger whose text it is; what binding goes by; how deep queries may stand
/// in one another; what may stand there, and whether aggregates may; and the results whose names count. Contracts see `Where`.
#[derive(Drop)]
pub struct Scope<'a> {
    pub text: &'a str,
    pub within: Option<&'a Entry>,
    pub catalog: &'a Catalog,
    pub facts: &'a HostFacts,
    pub depth: u32,
    pub allowed: Allowed,
    pub standing: Standing,
    pub results: &'a [ResultColumn],
}

impl<'a> Model for Scope<'a> {
    ghost use Rattle.std.specs.Coded.{codes};
    ghost use Rattle.std.specs.Option.{option_copied, option_map};
    ghost use Rattle.eng_entry.specs.declared.entry.Entry.{Entry};
    ghost use Rattle.sql_tree.specs.contracts.expr.Expr as expr;
    ghost use Rattle.sql_tree.specs.contracts.query.Query as query;
    ghost use Rattle.sql_tree.specs.contracts.query.ResultColumn as shown;
    ghost use Rattle.bind_query.specs.Where.{Where};

    ghost Value = { Where };

    ghost coded = { Prim.hlevel (codes, expr.the_row.coded, query.the_row.coded, shown.the_row.coded) };

    ghost view = { λ s. record {
      text = s.text.now;
      within = option_map (λ (e : Entry). e.name) (option_copied s.within);
      catalog = s.catalog.now;
      facts = s.facts.now;
      depth = s.depth;
      allowed = s.allowed;
      standing = s.standing;
      results = s.results.now;
    } };
}

/// How deep queries may stand in one another, views opened.
const MOST_QUERIES: u32 = 20;

impl<'a> Scope<'a> {
    /// Where a text begins, of a statement or of a constraint.
    pub fn of_text(
        text: &'a str,
        catalog: &'a Catalog,
        facts: &'a HostFacts,
        allowed: Allowed,
    ) -> Scope<'a>
        ensures { result ≡ in_text text.now None catalog.now facts.now allowed }
    {
        Scope {
            text,
            within: None,
            catalog,
            facts,
            depth: MOST_QUERIES,
            allowed,
            standing: Standing::Nowhere,
            results: &[],
        }
    }

    /// Where the text of a view or trigger begins.
    pub fn of_entry(
        entry: &'a Entry,
        catalog: &'a Catalog,
        facts: &'a HostFacts,
        allowed: Allowed,
    ) -> Scope<'a>
        ensures { result ≡ in_text entry.now.text (Some entry.now.name) catalog.now facts.now allowed }
    {
        Scope {
            text: entry.text.as_str(),
            within: Some(entry),
            catalog,
            facts,
            depth: MOST_QUERIES,
            allowed,
            standing: Standing::Nowhere,
            results: &[],
        }
    }

    /// The same without names of results.
    pub fn plain(&self) -> Scope<'a>
        ensures { result ≡ without_results self.now }
    {
        Scope {
            text: self.text,
            within: self.within,
            catalog: self.catalog,
            facts: self.facts,
            depth: self.depth,
            allowed: self.allowed,
            standing: self.standing,
            results: &[],
        }
    }

    /// The same where no aggregate may stand.
    pub fn within_aggregate(&self) -> Scope<'a>
        ensures { result ≡ within_aggregate self.now }
    {
        Scope {
            text: self.text,
            within: self.within,
            catalog: self.catalog,
            facts: self.facts,
            depth: self.depth,
            allowed: self.allowed,
            standing: Standing::Nowhere,
            results: self.results,
        }
    }

    /// The same in a query whose own queries stand at this depth.
    pub fn entered(&self, depth: u32) -> Scope<'a>
        ensures { result ≡ entered depth self.now }
    {
        Scope {
            text: self.text,
            within: self.within,
            catalog: self.catalog,
            facts: self.facts,
            depth,
            allowed: self.allowed,
            standing: Standing::Nowhere,
            results: &[],
        }
    }

    /// The same in a clause where the names of these results count, and aggregates stand so.
    pub fn clause(&self, standing: Standing, results: &'a [ResultColumn]) -> Scope<'a>
        ensures { result ≡ clause standing results.now self.now }
    {
        Scope {
            text: self.text,
            within: self.within,
            catalog: self.catalog,
            facts: self.facts,
            depth: self.depth,
            allowed: self.allowed,
            standing,
            results,
        }
    }

    /// In the text of a view's entry.
    pub fn view(&self, entry: &'a Entry) -> Scope<'a>
        ensures { result ≡ in_view entry.now self.now }
    {
        Scope {
            text: entry.text.as_str(),
            within: Some(entry),
            catalog: self.catalog,
            facts: self.facts,
            depth: self.depth,
            allowed: IN_STATEMENT,
            standing: Standing::Nowhere,
            results: &[],
        }
    }

    /// The name of the view or trigger whose text it is.
    pub fn within_name(&self) -> Result<Option<Text>, Cause>
        ensures ok { IfOk result (λ name. name ≡ self.now.within) }
        ensures mem { OnlyMem result }
    {
        match self.within {
            Some(entry) => Ok(Some(copied_text(&entry.name)?)),
            None => Ok(None),
        }
    }
}
