//! Laws of what filters are by their arguments and heads: functions that do nothing, whose clauses hold of all values.
ghost use Rattle.std.specs.Prelude.{◌≡◌, ◌≢◌, ◌⊎◌, ◌↔◌, ℕ, List, Some, Ok, Err, map};
ghost use Rattle.ff_time.specs.Duration.{IsDuration};
ghost use Rattle.ff_time.specs.Fraction.{IsBase};
ghost use Rattle.ff_frame.specs.declared.config.ConfigError.{ConfigError};
ghost use Rattle.ff_frame.specs.declared.config.ConfigError.TheVariants.{NoMemory};
ghost use Rattle.ff_frame.specs.declared.head.StreamHead.{StreamHead};
ghost use Rattle.ff_frame.specs.Heads.{IsHead, base_of_head};
ghost use Rattle.ff_stream.specs.declared.item.Lane.TheVariants.{Frames};
ghost use Rattle.ff_lang.specs.declared.graph.Arg.{Arg};
ghost use Rattle.ff_filter.specs.Views.{View, IsNew};
ghost use Rattle.ff_source.specs.declared.made.Made.{Made};
ghost use Rattle.ff_source.specs.Sources.{CanGive, head_of};
ghost use Rattle.ff_filters.specs.declared.name.FilterName.{FilterName};
ghost use Rattle.ff_filters.specs.declared.name.TheConstants.{FILTERS};
ghost use Rattle.ff_filters.specs.Configured.{Filtered};
ghost use Rattle.ff_filters.specs.Definitions.{filter_names};
ghost use Rattle.ff_filters.specs.Makes.{Makes, Refuses, configured_as, made_as};
ghost use Rattle.ff_filters.specs.Texts.{duration_of};

/// The filters that are told are those by whose names graphs are read, in this order.
pub fn filters_are_told()
    ensures { map (λ line. (line.0.now, line.1)) FILTERS ≡ filter_names }
{}

/// A name, arguments and heads make at most one filter, which the function says; and it says why they are refused.
pub fn filters_are_determined()
    ensures made { (name : FilterName) (args : List Arg) (heads : List StreamHead) (v : View) (outs : List StreamHead)
        → Makes name args heads v outs → configured_as name args heads ≡ Ok (record { view = v; outs = outs }) }
    ensures refused { (name : FilterName) (args : List Arg) (heads : List StreamHead) (e : ConfigError)
        → Refuses name args heads e → (e ≡ NoMemory) ⊎ (configured_as name args heads ≡ Err e) }
{}

/// That there was no memory is nothing that the function says.
pub fn the_function_needs_no_memory()
    ensures { (name : FilterName) (args : List Arg) (heads : List StreamHead) → configured_as name args heads ≢ Err NoMemory }
{}

/// The inputs of a filter carry frames of the heads that it was configured for. Its outputs carry frames of the heads
/// beside it, and nothing came to it yet.
pub fn filters_carry_their_heads()
    ensures ins { (name : FilterName) (args : List Arg) (heads : List StreamHead) (f : Filtered)
        → configured_as name args heads ≡ Ok f → f.view.ins ≡ map Frames heads }
    ensures outs { (name : FilterName) (args : List Arg) (heads : List StreamHead) (f : Filtered)
        → configured_as name args heads ≡ Ok f → f.view.outs ≡ map Frames f.outs }
    ensures new { (name : FilterName) (args : List Arg) (heads : List StreamHead) (f : Filtered)
        → configured_as name args heads ≡ Ok f → IsNew f.view }
{}

/// The function that reads a duration reads all of them, and nothing else.
pub fn durations_are_read()
    ensures { (text : List ℕ) (us : ℕ) → IsDuration text us ↔ (duration_of text ≡ Some us) }
{}

/// What a source filter makes has a head of a stream, a time base in lowest terms, and frames that can all be given.
pub fn made_sources_are_fit()
    ensures head { (name : FilterName) (args : List Arg) (made : Made) → made_as name args ≡ Ok (Some made) → IsHead (head_of made) }
    ensures base { (name : FilterName) (args : List Arg) (made : Made) → made_as name args ≡ Ok (Some made) → IsBase (base_of_head (head_of made)) }
    ensures can { (name : FilterName) (args : List Arg) (made : Made) → made_as name args ≡ Ok (Some made) → CanGive made }
{}
