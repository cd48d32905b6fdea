//! The table of the debugger's commands.

/// A row for each command: its name, by what `cbpf_tool` reads the rest of its line, and its lines in the help. The
/// rows are handed to the macro `$reading`, after `$value`.
#[macro_export]
macro_rules! each_command {
    ($reading:ident $($value:ident),*) => {
        $reading! {
            $($value),*;
            "load" => load_by(), "
  load bpf WORDS      load a program and check it; WORDS are what cbpf asm
                      prints, or the lines of tcpdump -ddd joined by commas
  load pcap FILE      load a capture (pcap, not pcapng)";
            "disassemble" => alone(Session(SessionCommand::Disassemble)), "
  disassemble         list the program; l3 is instruction 3";
            "dump" => alone(Session(SessionCommand::Dump)), "
  dump                print the program as initializers of a C array";
            "breakpoint" => breakpoint_by(), "
  breakpoint N        set a breakpoint at instruction N
  breakpoint N a V    the same, but stop there only where A is V
  breakpoint N x V    the same, but stop there only where X is V
  breakpoint          list the breakpoints
  breakpoint reset    delete all breakpoints";
            "delete" => delete_by(), "
  delete N            delete the breakpoint at instruction N";
            "run" => run_by(), "
  run [N]             go on to the next stop, over N packets at most, or else
                      to the end; print how many packets passed and failed";
            "step" => step_by(), "
  step [N]            go on by N instructions (1), over packets too
  step -N             go back by N instructions, within the packet";
            "select" => select_by(), "
  select N            go before packet N, counted from 1, and count from there";
            "mark" => alone(Session(SessionCommand::Mark)), "
  mark                print the place: PACKET STEP";
            "resume" => resume_by(), "
  resume PACKET STEP  go to a place, and count from its packet";
            "stops" => alone(Session(SessionCommand::Stops)), "
  stops               list all stops ahead, and move nothing";
            "value" => value_by(), "
  value EXT N         let loads of the extension EXT give N; go before the
                      current packet, and count from there";
            "quit" => alone(Command::Quit), "
  quit                end; so does the end of the commands (Ctrl-D)";
        }
    };
}
