/// Who may ask: applications at the public side, the operator at the other. One connection may be both.
#[derive(Clone, Copy, Debug, PartialEq, Eq)]
pub enum Side {
    /// Applications that read.
    Public,
    /// The operator, who imports.
    Operator,
    /// Both at once.
    Both,
}

/// Where a route leads.
#[derive(Clone, Copy, Debug, PartialEq, Eq)]
pub enum Place {
    /// `/maps/{resource}`: the document of a resource.
    Maps,
    /// `/lookup/{net}/{address}`: the PID of an address in a network.
    Lookup,
    /// `/directory`: what there is to ask for.
    Directory,
    /// A query of a network by a body.
    Query(Query),
    /// `/tips`: the view of a resource.
    Tips,
    /// `/tips/{resource}/ug/{i}/{j}`: an edge of a resource's updates graph.
    Edge,
    /// `/edits/{id}`: an import.
    Edits,
}

/// What a body may ask of a network.
#[derive(Clone, Copy, Debug, PartialEq, Eq)]
pub enum Query {
    /// `/filter/net/{net}`: a filtered network map.
    NetworkMap,
    /// `/filter/cost/{net}`: a filtered cost map.
    CostMap,
    /// `/endpointcost/{net}`: costs between addresses.
    EndpointCosts,
    /// `/filter/prop/{net}`: a filtered property map.
    PropertyMap,
    /// `/pathvector/{net}`: paths, and properties of what they lead through.
    PathVector,
}
