//! The nodes that a query selects, document after document.

ghost use Rattle.std.specs.Prelude.{◌≡◌, [], true, false, IfOk, OnOk};
ghost use Rattle.std.specs.List.{fold};
ghost use Rattle.jp_compiled.specs.Compiled.{compiled_query};
ghost use Rattle.jp_compiled.specs.Parts.{roots_of, segments_in};
ghost use Rattle.jp_eval.specs.Nodelist.{document_nodes};
ghost use Rattle.jp_eval.specs.inner.Routes.{is_routed};
ghost use Rattle.jp_found.specs.Kept.{kept, taken};
ghost use Rattle.jp_node.specs.Part.{part_value};
ghost use Rattle.jp_pattern.specs.Tests.{Tests, AreRight};

use crate::fault::EvalFault;
use crate::fork::{Fork, Halving};
use crate::roots::answer_roots;
use crate::route::{Route, route_of, visit_along};
use crate::split::{Splitting, go_split};
use crate::walk::{Action, run};
use jp_compiled::CompiledQuery;
use jp_found::{Found, RootUse, asked_by, visitor_of};
use jp_node::{Part, PathStack, Scratch, Visit};
use std::alloc::{AllocError, Global};
use std::mem;
use std::thread::Threads;

/// Evaluates a compiled query on one document after another.
///
/// The memory that the text of a path took is kept for the next document, and so is the query's route.
#[derive(Drop)]
pub struct Evaluator<'p> {
    alloc: Global,
    query: &'p CompiledQuery,
    asked: RootUse,
    // The memory of a path's text and the route are all that is kept from document to document
    // (README, No answer outlives its document).
    scratch: Scratch,
    route: Route<'p>,
    ghost right_route: { is_routed
        (segments_in (roots_of query.now.roots.items) query.now.segments.items) route ≡ true },
}

impl<'p> Evaluator<'p> {
    ghost use Rattle.jp_eval.specs.Evaluated.{evaluated_query};

    /// Of this query. It takes no memory.
    pub fn new(alloc: Global, query: &'p CompiledQuery) -> Evaluator<'p>
        ensures { evaluated_query result ≡ compiled_query query.now }
    {
        Evaluator {
            alloc,
            query,
            asked: asked_by(query),
            scratch: Scratch::new(alloc),
            route: Route::Unknown,
        }
    }

    /// Hands the nodes that the query selects in a document, of which this is the whole value, to the
    /// visitor, in the order of its nodelist (RFC 9535, 2.1.2), as long as one more would change something:
    /// a node that is selected more than once comes as often.
    ///
    /// # Errors
    ///
    /// [`EvalFault::Memory`] where a growth of memory was refused. Further documents may be visited then, and
    /// what the visitor has is left open.
    pub fn visit<V: Visit + Drop>(
        &mut self,
        root: Part<'_>,
        visitor: &mut V,
    ) -> Result<(), EvalFault>
        ensures nodes { OnOk result ((tests : Tests) → AreRight tests →
            V.kept visitor.new ≡ fold V.put (V.kept visitor.old)
            (document_nodes tests (evaluated_query self.old) (part_value root.entry))) }
        ensures query { evaluated_query self.new ≡ evaluated_query self.old }
    {
        if self.visit_directly(root, visitor)? {
            return Ok(());
        }
        let query = self.query;
        let context = answer_roots::<V>(self.alloc, root, query.roots.as_slice(), self.asked)?;
        let segments = query.segments.as_slice();
        let mut path = empty_path(self.alloc, &mut self.scratch);
        let mut found = take_visitor(self.alloc, visitor);
        run(&context, segments, root, &mut path, &mut found)?;
        self.scratch = path.into_scratch();
        *visitor = visitor_of(found);
        Ok(())
    }

    /// The same as `visit`, where a list of children that the query's own segments walk, and that is
    /// long enough for these cuts, is cut into halves that are walked at once, and so is a half. What lies
    /// within as many cuts as there may be is walked whole.
    ///
    /// The fork is told of each half by the thread that walks it. A half whose thread can't be started is
    /// walked on the other's.
    ///
    /// # Errors
    ///
    /// [`EvalFault::Memory`] where a growth of memory was refused. Further documents may be visited then, and
    /// what the visitor has is left open.
    pub fn visit_split<R: Threads + Sync, F: Fork + Sync, V: Visit + Drop + Send>(
        &mut self,
        rt: &R,
        root: Part<'_>,
        halving: Halving<'_, F>,
        visitor: &mut V,
    ) -> Result<(), EvalFault>
        ensures nodes { OnOk result ((tests : Tests) → AreRight tests →
            V.kept visitor.new ≡ fold V.put (V.kept visitor.old)
            (document_nodes tests (evaluated_query self.old) (part_value root.entry))) }
        ensures query { evaluated_query self.new ≡ evaluated_query self.old }
    {
        if self.visit_directly(root, visitor)? {
            return Ok(());
        }
        let query = self.query;
        let context = answer_roots::<V>(self.alloc, root, query.roots.as_slice(), self.asked)?;
        let segments = query.segments.as_slice();
        let mut path = empty_path(self.alloc, &mut self.scratch);
        let mut found = take_visitor(self.alloc, visitor);
        let splitting = Splitting {
            rt,
            fork: halving.fork,
            context: &context,
            cuts: halving.cuts,
        };
        go_split(
            &splitting,
            Action::Run(segments),
            root,
            &mut path,
            &mut found,
        )?;
        self.scratch = path.into_scratch();
        *visitor = visitor_of(found);
        Ok(())
    }

    /// Tells the visitor of the node at the end of the query's route, where the query has one, and says
    /// whether it has.
    fn visit_directly<V: Visit + Drop>(
        &mut self,
        root: Part<'_>,
        visitor: &mut V,
    ) -> Result<bool, AllocError>
        ensures direct { IfOk result (λ is_direct. is_direct ≡ true → (tests : Tests)
            → V.kept visitor.new ≡ fold V.put (V.kept visitor.old)
            (document_nodes tests (evaluated_query self.old) (part_value root.entry))) }
        ensures other { IfOk result (λ is_direct. is_direct ≡ false
            → V.kept visitor.new ≡ V.kept visitor.old) }
        ensures query { evaluated_query self.new ≡ evaluated_query self.old }
    {
        self.find_route()?;
        match &mut self.route {
            Route::Links(path_stack) => {
                visit_along(self.alloc, path_stack, root, visitor)?;
                Ok(true)
            }
            Route::Missing | Route::Unknown => Ok(false),
        }
    }

    /// Looks for the query's route, where it has not been looked for.
    fn find_route(&mut self) -> Result<(), AllocError>
        ensures query { evaluated_query self.new ≡ evaluated_query self.old }
    {
        if let Route::Unknown = self.route {
            self.route = route_of(self.alloc, self.query.segments.as_slice())?;
        }
        Ok(())
    }
}

/// A path stack with no link, whose text has the memory that was kept. A walk that ends in want of memory
/// drops it: the next document begins with an empty one.
fn empty_path<'v>(alloc: Global, scratch: &mut Scratch) -> PathStack<'v>
    ensures { result ≡ [] }
{
    PathStack::with_scratch(alloc, mem::replace(scratch, Scratch::new(alloc)))
}

/// The visitor, as what a walk finds nodes for. An empty one stands in its place meanwhile.
fn take_visitor<'v, V: Visit + Drop>(alloc: Global, visitor: &mut V) -> Found<'v, V>
    ensures { kept V.kept result ≡ taken (V.kept visitor.old) }
{
    let empty = visitor.fresh(alloc);
    Found::Visitor(mem::replace(visitor, empty))
}
