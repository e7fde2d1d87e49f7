//! Media types of documents and of patches.
ghost use Rattle.std.specs.Prelude.{◌≡◌};
ghost use Rattle.alto_answers.specs.Types.{media_type_of};

use alto_rows::Resource;

/// The media type of a network map (RFC 7285, section 11.2.1.1).
pub(crate) const NETWORK_MAP: &str = "application/alto-networkmap+json";

/// The media type of a cost map (RFC 7285, section 11.2.3.1).
pub(crate) const COST_MAP: &str = "application/alto-costmap+json";

/// The media type of costs between addresses (RFC 7285, section 11.5.1.1).
pub(crate) const ENDPOINT_COST: &str = "application/alto-endpointcost+json";

/// The media type of a path vector, which has two parts (RFC 9275, section 7.2.6).
pub(crate) const PATH_VECTOR: &str =
    "multipart/related;boundary=alto-part;type=\"application/alto-costmap+json\"";

/// The media type of the directory (RFC 7285, section 9.2.1).
pub(crate) const DIRECTORY: &str = "application/alto-directory+json";

/// The media type of a property map (RFC 9240, section 7.1).
pub(crate) const PROPERTY_MAP: &str = "application/alto-propmap+json";

/// The media type of a merge patch (RFC 7396, section 4).
pub(crate) const MERGE_PATCH: &str = "application/merge-patch+json";

/// The media type of a JSON Patch (RFC 6902, section 6).
pub(crate) const JSON_PATCH: &str = "application/json-patch+json";

/// The media type of a resource's document.
pub(crate) fn media_type(resource: &Resource) -> &'static str
    ensures { result.now ≡ media_type_of resource.now }
{
    match resource {
        Resource::Net(_) => NETWORK_MAP,
        Resource::Cost(_, _) => COST_MAP,
        Resource::Prop(_) => PROPERTY_MAP,
    }
}
