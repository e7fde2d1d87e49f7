//! Views, opened.

ghost use Rattle.std.specs.Prelude.{◌≡◌, Some, Ok, [], ◌∷◌, ◌++◌, codes};
ghost use Rattle.alto_answers.specs.Opening.{opened};
ghost use Rattle.alto_book.specs.Numbers.{updates_graph};
ghost use Rattle.alto_replies.specs.Reply.{ReplyData};
ghost use Rattle.alto_rows.specs.declared.resource.Resource.TheVariants.{Net};
ghost use Rattle.json_tree.specs.Document.{object_of};
ghost use Rattle.serde_json.specs.Data.{string};
ghost use Rattle.worked_examples.specs.Requests.{view};
ghost use Rattle.worked_examples.specs.Story.{metro_book};

/// A client that holds the second number is told the longest edge onward, and the authority of its Host field.
pub fn a_view_tells_the_longest_edge_onward()
    ensures { opened (codes "e1") (Some (codes "alto.example:8080"))
        (object_of ((codes "resource-id", string (codes "metro")) ∷ (codes "tag", string (codes "e1-2")) ∷ []))
        (codes "metro") (updates_graph (metro_book 8) (Net (codes "metro")))
        ≡ Ok (view
        (codes "{\"tips-view-summary\":{\"updates-graph-summary\":"
        ++ codes "{\"end-seq\":4,\"start-edge-rec\":{\"seq-i\":2,\"seq-j\":4},\"start-seq\":1}},"
        ++ codes "\"tips-view-uri\":\"http://alto.example:8080/tips/metro\"}")) }
{}
