// The laws that bound the text of a design by its size.
ghost use Rattle.verilog_size.specs.Sizes.{TextsAreSmall, NamesAreFew, OwnNamesAreFew, TextsAreSmallByNames};

/// The text of an accepted design has at most 100 bytes for each part of the design, beside the
/// names in it (`design_names`). Where the names of a module's nets and memories have at most `most`
/// bytes, those in the module have at most `5 * most` for each port, net and memory, beside its own
/// and those of its instances; and where those of nets that are no ports have at most `own` bytes,
/// at most `3 * most` for each port and `2 * own + 3 * most` for each net and memory. So the text of a design whose names all have at most `most` bytes has
/// at most `5 * most + 100` for each part. The function does nothing: its contract is the laws.
pub fn text_sizes()
    ensures small { TextsAreSmall }
    ensures names { NamesAreFew }
    ensures own_names { OwnNamesAreFew }
    ensures by_names { TextsAreSmallByNames }
{}
