//! Laws: functions that do nothing, and whose contracts say what holds of every shape, value and document.
//!
//! Those that others rest on: `law_round_trip`, of the types with the traits; `law_views_reads` and `law_views_means`, of what is read; `law_spell_means` and `law_writers`, of what is
//! written; `law_recast_again` and `law_two_ways`, of what is recast; `law_assembled`, of the raw builder.

pub use bson_assembled::law_assembled;
pub use bson_base::law_opened_folds;
pub use bson_evolve_differences::law_differences;
pub use bson_evolve_laws::{law_compatible, law_first_fault, law_plain, law_reflexive};
pub use bson_helpers::law_marks_compare;
pub use bson_infer_laws::{
    law_encoded_documents, law_inferred_again, law_inferred_recasts, law_inferred_shape,
    law_inferred_views, law_join,
};
pub use bson_infer_run::{law_infer_files, law_sound};
pub use bson_laws::{
    law_datum_spells, law_opened_agrees, law_opened_represents, law_read_back, law_reads_mended,
    law_reads_numbers, law_reads_spell, law_reads_tree, law_recast_again, law_references_read,
    law_references_seen, law_spell_means, law_views_means, law_views_reads,
};
pub use bson_number_laws::law_tree_numbers;
pub use bson_recast_run::law_run_again;
pub use bson_shape::{law_guarded, law_text};
pub use bson_tree_laws::{law_fitting_written, law_writers};
pub use bson_types::{law_round_trip, law_round_trip_equal};
pub use bson_ways_laws::{
    law_two_ways, law_two_ways_reading, law_two_ways_simple, law_two_ways_writing,
};
