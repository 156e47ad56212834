//! The program over its streams.
ghost use Rattle.std.specs.Prelude.{ℕ, List};

use crate::device::run_words;
use bridge_parts::net_note;
use bridge_words::Command;
use cli_files::{SystemFiles, run_check, run_rescue, run_restore, run_skip};
use cli_parts::{
    Arguments, Ending, Host, NoArguments, Reader, RunOptions, Shown, StandardError, Taken, Told,
    Untaken, WithTokens, answer, confirm, hold_streams, is_check, keep_freed, print_beside_usage,
    print_beside_wrong_option, print_ending, print_error, print_note, print_start, rescue_of,
    restore_of, skip_of, take_options, version_day, with_bytes, with_tokens, words_of_list,
};
use edge_io::{FileIo, Sink};
use edge_net::{Manager, Reports, TcpNet, TokenFile, Waits};
use notes::Note;
use std::fs::OpenOptions;
use std::io::{self, IsTerminal};
use std::sync::{Arc, Wait};
use std::thread::Threads;

// What is said of the net, whose senders may have tokens of a file, how much memory its connections may take, and through which
// proxies they come, as the options have it.
fn reports_of(options: RunOptions, tokens: Option<TokenFile>) -> Reports {
    let reports = if options.is_quiet {
        Reports::quiet()
    } else {
        Reports::new()
    };
    let reports = reports
        .of_version(version_day())
        .with_verbose(options.is_verbose)
        .with_tokens(tokens);
    let reports = match options.proxies {
        Some(proxies) => reports.with_proxies(proxies),
        None => reports,
    };
    match options.memory {
        Some(bytes) => reports.with_memory(bytes),
        None => reports,
    }
}

// How long the net waits, as the options have it.
fn waits_of(options: RunOptions) -> Waits {
    match options.idle {
        Some(seconds) => Waits::standard().with_accepted(seconds),
        None => Waits::standard(),
    }
}

// Whether the arguments ask for the command of this name.
fn asks_for(arguments: &Arguments, command: &str) -> bool {
    match arguments.words.first() {
        Some(name) => name.as_str() == command,
        None => false,
    }
}

// Whether FILE opens at this moment, for this program alone. It is only locked, and closed again.
fn opens(rt: &HostRuntime, file: &str) -> bool {
    let mut options = OpenOptions::new();
    options.read(true).write(true);
    match options.open(rt, file) {
        Ok(file) => file.try_lock().is_ok(),
        Err(_) => false,
    }
}

// Listens at each place at which a server is wanted, before FILE is opened and a run of it is spent. Where FILE doesn't open, as one that
// is in use, that comes first, and its opening says why. The error is how the program ends where a place can't be listened at, of which
// standard error has said why.
fn listen_first(
    rt: &HostRuntime,
    arguments: &Arguments,
    net: &mut TcpNet<'_, Host<'_>>,
) -> Result<(), Ending> {
    let server = match Command::of(rt.alloc(), &arguments.words) {
        Ok(Some(Command::Serve { server })) => server,
        Ok(_) => return Ok(()),
        Err(_) => return Err(Ending::Noted(Note::NoMemory)),
    };
    if !opens(rt, &arguments.file) {
        return Ok(());
    }
    for place in [
        &server.status,
        &server.relp,
        &server.lumberjack,
        &server.hec,
    ] {
        if let Some(place) = place
            && let Err(fault) = net.listen(place.as_str())
        {
            return Err(Ending::Noted(net_note(fault)));
        }
    }
    Ok(())
}

// Who reads standard output: what events have is not shown to a terminal as it is, and a check prints none.
fn reader_of(rt: &HostRuntime, arguments: &Arguments) -> Reader {
    if is_check(&arguments.words) {
        Reader::Nobody
    } else if asks_for(arguments, "list") && rt.stdout().is_terminal() {
        Reader::Terminal
    } else {
        Reader::Program
    }
}

// Checks the slots of FILE. Where all are sound, the words are those by which the check goes on; else it ends so.
fn check_slots<K: Sink>(
    host: Host<'_>,
    files: &SystemFiles<'_>,
    file: &str,
    nowhere: &mut K,
) -> Result<Vec<String>, Ending>
    requires prints { (k : K) (text : List ℕ) → K.permits k text }
{
    match run_check(host, files, file, nowhere) {
        Ending::Noted(Note::Fine) => {
            words_of_list(host.rt.alloc()).map_err(|_| Ending::Noted(Note::NoMemory))
        }
        ending => Err(ending),
    }
}

// Does what the arguments say, over standard input, standard output and the sockets of the system; but a `format` that its user takes back
// does nothing.
fn run_arguments<R: Threads + Wait + Sync>(
    rt: &HostRuntime,
    threads: &R,
    arguments: &Arguments,
    options: RunOptions,
    tokens: Option<TokenFile>,
    errors: &StandardError,
) -> Ending {
    let host = Host { rt, errors };
    if let Err(ending) = confirm(host, arguments) {
        return ending;
    }
    let mut input = FileIo::of(rt.reader());
    let reader = reader_of(rt, arguments);
    let mut output = FileIo::of(Shown::over(rt.alloc(), io::writer(rt), reader));
    let files = SystemFiles::new(rt);
    if let Some(number) = skip_of(&arguments.words) {
        return run_skip(host, &files, &arguments.file, number, &mut output);
    }
    if let Some(rescue) = rescue_of(&arguments.words) {
        return run_rescue(host, &files, &arguments.file, rescue.layout, &mut output);
    }
    if let Some(restore) = restore_of(&arguments.words) {
        return run_restore(host, &files, &arguments.file, restore);
    }
    let listed = match is_check(&arguments.words) {
        true => match check_slots(host, &files, &arguments.file, &mut output) {
            Ok(words) => Some(words),
            Err(ending) => return ending,
        },
        false => None,
    };
    let reports = reports_of(options, tokens);
    let told = Told {
        file: reports.file(),
    };
    let net = TcpNet::with_waits(rt.alloc(), &host, &reports, waits_of(options));
    let mut net = net.telling(Manager::named(rt));
    if let Err(ending) = listen_first(rt, arguments, &mut net) {
        return ending;
    }
    let ending = run_words(
        host,
        threads,
        &files,
        &arguments.file,
        match &listed {
            Some(words) => words,
            None => &arguments.words,
        },
        told,
        &mut input,
        &mut output,
        &mut net,
    );
    if let (Some(_), Ending::Noted(note)) = (&listed, ending) {
        print_note(&(host, rt.alloc()), note);
    }
    ending
}

// The same, and says on standard error what isn't well. A server has its lines written by a thread, and waits for that in the end.
fn run_taken<R: Threads + Wait + Sync + Copy + Send + 'static>(
    rt: &HostRuntime,
    threads: &R,
    arguments: &Arguments,
    options: RunOptions,
    tokens: Option<TokenFile>,
) -> Ending {
    let alloc = rt.alloc();
    let Ok(errors) = Arc::new(alloc, StandardError::new(rt, options.has_time)) else {
        print_note(
            &(StandardError::new(rt, options.has_time), alloc),
            Note::NoMemory,
        );
        return Ending::Noted(Note::NoMemory);
    };
    if asks_for(arguments, "serve") {
        if StandardError::start(threads, &errors).is_err() {
            print_note(&(&*errors, alloc), Note::NoMemory);
            return Ending::Noted(Note::NoMemory);
        }
        if !options.is_quiet {
            print_start(&(&*errors, alloc), &arguments.file, &arguments.words);
            errors.finish(rt);
        }
    }
    let ending = run_arguments(rt, threads, arguments, options, tokens, &errors);
    print_ending(&(&*errors, alloc), arguments, ending);
    if ending == Ending::Noted(Note::Usage) {
        print_beside_usage(&(&*errors, alloc), arguments);
    }
    errors.finish(rt);
    ending
}

// The words with what they stand for in the places of SIZE with a unit, and of the files that hold tokens. The error is the note with which
// the run ends; standard error has said it.
fn with_values(host: Host<'_>, words: Vec<String>) -> Result<WithTokens, Note> {
    match with_bytes(host.rt.alloc(), words) {
        Ok(words) => with_tokens(host, words),
        Err(_) => {
            print_note(&(host, host.rt.alloc()), Note::NoMemory);
            Err(Note::NoMemory)
        }
    }
}

// The same where the options of the run stand among the words, which are taken out of them. Where one of them is wrong, lines have no time.
fn run_all<R: Threads + Wait + Sync + Copy + Send + 'static>(
    rt: &HostRuntime,
    threads: &R,
    arguments: Arguments,
) -> Ending {
    let taken = take_options(rt.alloc(), &arguments.words);
    let Arguments { file, words } = arguments;
    match taken {
        Ok(Taken { words, options }) => {
            let errors = StandardError::new(rt, options.has_time);
            let host = Host {
                rt,
                errors: &errors,
            };
            let WithTokens {
                words,
                file: tokens,
            } = match with_values(host, words) {
                Ok(values) => values,
                Err(note) => return Ending::Noted(note),
            };
            let arguments = Arguments { file, words };
            run_taken(rt, threads, &arguments, options, tokens)
        }
        Err(Untaken::Wrong(wrong)) => {
            let said = (StandardError::new(rt, false), rt.alloc());
            print_note(&said, Note::Usage);
            print_beside_wrong_option(&said, &Arguments { file, words }, wrong);
            Ending::Noted(Note::Usage)
        }
        Err(Untaken::NoMemory) => {
            print_note(&(StandardError::new(rt, false), rt.alloc()), Note::NoMemory);
            Ending::Noted(Note::NoMemory)
        }
    }
}

/// Runs the program, in threads of `threads` where its command takes some: what it was called with is FILE and then the words, among which
/// stand the options of the run, and its streams are standard input and output. One that is closed is taken as empty, or as one to which
/// a write fails. Where it doesn't end well, standard error gets the note's line, and after the usage line others that say what is wrong
/// with the words. Where help or the version is asked for, standard output gets that, and no command is read.
pub fn run<R: Threads + Wait + Sync + Copy + Send + 'static>(
    rt: &HostRuntime,
    threads: &R,
) -> Ending {
    let _held = hold_streams(rt);
    keep_freed(rt.alloc());
    let said = (StandardError::new(rt, false), rt.alloc());
    match Arguments::read(rt) {
        Ok(arguments) => match answer(rt, &said, &arguments) {
            Some(ending) => ending,
            None => run_all(rt, threads, arguments),
        },
        Err(NoArguments::NoText) => {
            print_note(&said, Note::Usage);
            print_error(&said, &NoArguments::NoText);
            Ending::Noted(Note::Usage)
        }
        Err(NoArguments::NoMemory) => {
            print_note(&said, Note::NoMemory);
            Ending::Noted(Note::NoMemory)
        }
    }
}
