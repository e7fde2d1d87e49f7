ghost use Rattle.std.specs.Prelude.{◌≡◌, IfOk};
ghost use Rattle.json_tree.specs.Tree.{data_of};
ghost use Rattle.alto_directory.specs.Entry.{type_data};
ghost use Rattle.alto_directory.specs.MediaTypes.{type_text};

use json_tree::Tree;
use std::alloc::{AllocError, Global};

/// A media type of what the server answers or takes.
#[derive(Clone, Copy, Debug, PartialEq, Eq)]
pub enum MediaType {
    /// A network map.
    NetworkMap,
    /// What is asked of a network map.
    NetworkMapFilter,
    /// A cost map.
    CostMap,
    /// What is asked of a cost map.
    CostMapFilter,
    /// Costs between endpoints.
    EndpointCost,
    /// What is asked of costs between endpoints.
    EndpointCostParams,
    /// A property map.
    PropertyMap,
    /// What is asked of a property map.
    PropertyMapParams,
    /// Path vectors: a cost map, and the properties of what lies on the paths.
    PathVector,
    /// An opened view of updates.
    Tips,
    /// Which view to open.
    TipsParams,
}

impl MediaType {
    /// The text of the media type.
    pub fn as_str(self) -> &'static str
        ensures { result.now ≡ type_text self }
    {
        match self {
            MediaType::NetworkMap => "application/alto-networkmap+json",
            MediaType::NetworkMapFilter => "application/alto-networkmapfilter+json",
            MediaType::CostMap => "application/alto-costmap+json",
            MediaType::CostMapFilter => "application/alto-costmapfilter+json",
            MediaType::EndpointCost => "application/alto-endpointcost+json",
            MediaType::EndpointCostParams => "application/alto-endpointcostparams+json",
            MediaType::PropertyMap => "application/alto-propmap+json",
            MediaType::PropertyMapParams => "application/alto-propmapparams+json",
            MediaType::PathVector => "multipart/related;type=application/alto-costmap+json",
            MediaType::Tips => "application/alto-tips+json",
            MediaType::TipsParams => "application/alto-tipsparams+json",
        }
    }

    /// The media type as JSON.
    pub(crate) fn tree(self, alloc: Global) -> Result<Tree, AllocError>
        ensures { IfOk result (λ tree. data_of tree ≡ type_data self) }
    {
        Tree::text(alloc, self.as_str())
    }
}
