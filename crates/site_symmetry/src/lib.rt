//! The site-symmetry group of a point: the elements of the space group, whole shifts included, that map the point to
//! itself. International Tables A, "site symmetry".
//!
//! Proved: `site` lists it, each element once, in the order of the operators; `order_at` is its number. Every rational point
//! has one such list (`site_of_point`, `one_ordered_site`), in which no two elements have one rotation part
//! (`one_element_of_a_rotation`); the group of an image is the conjugate one (`site_of_image`); and points are conjugate
//! exactly where an image of one has the same element of each member as the other, or none (`conjugate_by_members`). Being
//! conjugate is an equivalence relation (`conjugate_points`), and points of one orbit are conjugate
//! (`conjugate_points_of_an_orbit`).
#![tactic(auto)]

mod fixing;
mod laws;
pub mod parts;
mod sites;

pub use fixing::{fixes, order_at};
pub use laws::{
    conjugate_by_members, conjugate_points, conjugate_points_of_an_orbit,
    one_element_of_a_rotation, one_ordered_site, site_of_image, site_of_point,
};
pub use sites::site;
