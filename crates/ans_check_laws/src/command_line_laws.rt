//! Laws of the command line: each is the contract of a function without a body.

ghost use Rattle.std.specs.Prelude.{◌≡◌, true, false, List, [], ◌∷◌, Some, None, IsSome, codes, option_map};
ghost use Rattle.clap.specs.Words.{Text, fault_of, is_simple, is_simple_and_free};
ghost use Rattle.clap.specs.declared.error.ErrorKind.TheVariants.{DisplayHelp, DisplayVersion};
ghost use Rattle.clap.specs.declared.error.ErrorKind.TheVariants.{InvalidSubcommand, UnknownArgument};
ghost use Rattle.ans_options.specs.declared.command.Command.{Command};
ghost use Rattle.ans_check_laws.specs.Requests.{IsRequestAloneOrNotAtAll};
ghost use Rattle.ans_options.specs.CommandLine.{IsNoCommand, anscheck, command_name};
ghost use Rattle.ans_options.specs.CommandLine.{faults_of, takes_files};
ghost use Rattle.ans_options.specs.Topics.{IsTopic, topic_name, topic_of};
ghost use Rattle.ans_options.specs.declared.topic.Topic.{Topic};

/// The command line is of `clap`'s simple kind: one level of subcommands, flags, options that take a
/// number, one optional FILE or, for `why` and `table`, any number of them, and no rules between arguments. So its
/// matches are a function of the words, and so are the kinds that an error may have.
pub fn command_line_is_simple()
    ensures simple { is_simple anscheck ≡ true }
    ensures free { is_simple_and_free anscheck ≡ true }
{}

/// If the first fault of words that `clap` reads may be that help is asked for, it is that and
/// nothing else; and so with the version. `faults_of` is the fault of such words. So the program's
/// words tell whether help or the version is shown, or a mistake.
pub fn requests_stand_alone()
    ensures { (words : List Text) → IsRequestAloneOrNotAtAll (fault_of anscheck words) }
{}

/// `--version` and `-V` ask for the version, whatever follows.
pub fn version_is_asked_for()
    ensures long { (program : Text) → (more : List Text)
        → faults_of (program ∷ codes "--version" ∷ more) ≡ DisplayVersion ∷ [] }
    ensures short { (program : Text) → (more : List Text)
        → faults_of (program ∷ codes "-V" ∷ more) ≡ DisplayVersion ∷ [] }
{}

/// To `clap`, `help` asks for help by itself, or with only a command's name after it. All
/// else after it is a mistake. The names of faults, notes and words never come to it: [`ans_options::asked`] answers
/// them before `clap` reads.
pub fn help_takes_one_command()
    ensures alone { (program : Text) → faults_of (program ∷ codes "help" ∷ []) ≡ DisplayHelp ∷ [] }
    ensures command { (program : Text) → (c : Command)
        → faults_of (program ∷ codes "help" ∷ command_name c ∷ []) ≡ DisplayHelp ∷ [] }
    ensures other { (program name : Text) → (more : List Text) → IsNoCommand name
        → faults_of (program ∷ codes "help" ∷ name ∷ more) ≡ UnknownArgument ∷ InvalidSubcommand ∷ [] }
    ensures more { (program word : Text) → (more : List Text) → (c : Command) → takes_files c ≡ false
        → faults_of (program ∷ codes "help" ∷ command_name c ∷ word ∷ more) ≡ UnknownArgument ∷ [] }
    ensures more_of_files { (program word : Text) → (more : List Text) → (c : Command) → takes_files c ≡ true
        → faults_of (program ∷ codes "help" ∷ command_name c ∷ word ∷ more)
        ≡ UnknownArgument ∷ InvalidSubcommand ∷ [] }
{}

/// The name of each fault, each note and each word asks for what it means, and the name of a command asks for none.
/// What asks for a meaning is a mistake to `clap`, so that nothing that `clap` takes means something else.
pub fn topics_have_their_names()
    ensures found { (program : Text) → (t : Topic) → IsTopic t
        → option_map topic_name (topic_of (program ∷ codes "help" ∷ topic_name t ∷ [])) ≡ Some (topic_name t) }
    ensures command { (program : Text) → (c : Command)
        → topic_of (program ∷ codes "help" ∷ command_name c ∷ []) ≡ None }
    ensures mistake { (words : List Text) → IsSome (topic_of words)
        → faults_of words ≡ UnknownArgument ∷ InvalidSubcommand ∷ [] }
{}
