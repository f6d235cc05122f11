//! Reports and their lines as they are read, each the contract of a function that does nothing.
ghost use Rattle.std.specs.Prelude.{◌≡◌, ◌∷◌, ◌++◌, [], codes, replicate, Some, None};
ghost use Rattle.ua_values.specs.declared.value.Value.TheVariants.{UInt32};
ghost use Rattle.pubsub_model.specs.Answers.{version_of};
ghost use Rattle.pubsub_model.specs.declared.reading.Why.TheVariants.{NewToken};
ghost use Rattle.pubsub_states.specs.declared.state.State.TheVariants.{Operational, Paused};
ghost use Rattle.ps_config.specs.BuiltIn.{built_in_config};
ghost use Rattle.ps_report.specs.Conditions.{IsClosedOf};
ghost use Rattle.ps_report.specs.FirstRun.{first_run, first_run_text, unnumbered_config, unnumbered_run, unnumbered_text, foreign_config, foreign_run, watched_run};
ghost use Rattle.ps_report.specs.Lines.{history_line, group_line, writer_line, read_group_line, numbered_text, field_text, gaps_line, waits_text, watch_line, link_line};
ghost use Rattle.ps_report.specs.Reports.{report_text};
ghost use Rattle.ps_report.specs.Told.{TellsEnds};

/// Lines of small sessions, spelled out.
pub fn lines_read_so()
    ensures history { history_line (codes "demo") (0 ∷ 3 ∷ []) ≡ codes "history demo 2: 0 3\n" }
    ensures empty { history_line (codes "demo") [] ≡ codes "history demo 0:\n" }
    ensures group { group_line (codes "g1") (record { state = Operational; sent = 2 })
        ≡ codes "group g1 operational sent 2\n" }
    ensures writer { writer_line (codes "w1")
        (record {
          state = Paused;
          log = (record { 0 = 0; 1 = 1 }) ∷ (record { 0 = 1; 1 = 1 }) ∷ [];
        }) ≡ codes "writer w1 paused 2: 0=1 1=1\n" }
    ensures read_group { read_group_line (codes "rg1") (record {
      state = Operational;
      taken = 2;
      causes = replicate 6 0 ++ 3 ∷ replicate 12 0 ++ 1 ∷ [];
    }) ≡ codes "readgroup rg1 operational taken 2: NotOurs=3 BadFrame=1\n" }
    ensures held { numbered_text (Some 3) (Some 2) ≡ codes " number 3 version 2:" }
    ensures unnumbered { numbered_text None None ≡ codes " number - version -:" }
    ensures waits { waits_text NewToken ≡ codes " waits newtoken" }
    ensures good { field_text (codes "a") (UInt32 7) 0 ≡ codes " a=7" }
    ensures bad { field_text (codes "a") (UInt32 7) 2147483648 ≡ codes " a!0x80000000=7" }
    ensures gaps { gaps_line (codes "r1") 1 (record { expected = 1; got = 2 } ∷ [])
        ≡ codes "gaps r1 1: 1/2\n" }
    ensures watch { watch_line 3 (codes "r1") (1 ∷ 1 ∷ 2 ∷ []) ≡ codes "watch 3 r1: 1 1 2\n" }
    ensures link { link_line
        (record { sent = 1; failed = 2; received = 3; broken = 4; long = 5; limit = 6 })
        ≡ codes "link sent 1 failed 2 received 3 broken 4 long 5 limit 6\n" }
{}

/// The report of the built-in configuration after `write 0 demo a=7` and `tick 100`, spelled out.
pub fn a_report_reads_so()
    ensures closed { IsClosedOf built_in_config first_run }
    ensures told { TellsEnds built_in_config first_run }
    ensures text { report_text built_in_config first_run ≡ first_run_text }
{}

/// The same session with a reader whose numbering is `none`: neither a number is reported nor a version, and dashes are printed.
pub fn an_unnumbered_report_reads_so()
    ensures closed { IsClosedOf unnumbered_config unnumbered_run }
    ensures told { TellsEnds unnumbered_config unnumbered_run }
    ensures text { report_text unnumbered_config unnumbered_run ≡ unnumbered_text }
{}

/// What is reported goes by the configuration: a number exactly where the reader is numbered, and no version of another
/// program's.
pub fn ends_go_by_the_configuration()
    ensures foreign { TellsEnds foreign_config foreign_run }
    ensures no_number { ¬ (TellsEnds built_in_config unnumbered_run) }
    ensures no_version { ¬ (TellsEnds built_in_config foreign_run) }
    ensures numbered { ¬ (TellsEnds unnumbered_config first_run) }
    ensures versioned { ¬ (TellsEnds foreign_config first_run) }
{}

/// Watches are reported in the order of their threads.
pub fn watches_are_told_by_thread()
    ensures in_order { TellsEnds built_in_config (watched_run 0 1) }
    ensures out_of_order { ¬ (TellsEnds built_in_config (watched_run 1 0)) }
{}

/// A version is found in a log by the 16 bits of its place, the latest that has them.
pub fn versions_are_found_by_number()
    ensures wrapped { version_of
        ((record { 0 = 65535; 1 = 3 }) ∷ (record { 0 = 65536; 1 = 4 }) ∷ []) 0 ≡ Some 4 }
    ensures latest { version_of
        ((record { 0 = 0; 1 = 1 }) ∷ (record { 0 = 65536; 1 = 2 }) ∷ []) 0 ≡ Some 2 }
    ensures absent { version_of ((record { 0 = 65535; 1 = 3 }) ∷ []) 0 ≡ None }
{}
