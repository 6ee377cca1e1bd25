// The theory of the merge tree and its water: each law is a function's contract. Beside it, what calls on a site's
// water are given, answer and refuse.
#![tactic(auto)]

// What calls are given and answer in.
mod units;

pub use units::{Leaf, Litres, Totals};

// Why a call is refused.
mod refusal;

pub use refusal::{RAIN_LIMIT, Refusal};

// The records of a tree by their numbers.
mod records;

pub use records::a_number_names_one_record;

// Pouring litres at leaves, all at once.
mod pouring;

pub use pouring::{
    a_full_tree_lets_all_pass, a_tree_that_overflows_takes_nothing_more, litres_add_up_at_a_leaf,
    no_litre_is_lost_or_made, only_what_has_no_room_leaves, pouring_changes_only_water,
    pouring_in_either_order_gives_the_same_tree, water_stays_within_volumes,
};

// Rains one after another.
mod rains;

pub use rains::equal_rain_on_every_leaf_gives_equal_water;

// The walk of one litre.
mod litre;

pub use litre::{a_litre_rests_in_one_record, the_litre_walk_is_bulk_pouring};

// Rain over a depression.
mod depression;

pub use depression::rain_stays_in_a_depression_with_room;

// The level over a leaf.
mod level;

pub use level::the_level_is_that_of_the_topmost_pool;

// The worked examples.
mod examples;

pub use examples::the_worked_examples_hold;
