// The static library that a host program in C or Rust links: each of `embed`'s functions under its C name, with the same clauses. The C declarations, and what
// each function does, stand in host/include/banshorra.h.
#![tactic(auto)]

ghost use Rattle.std.specs.Prelude.{◌≡◌, length};
ghost use Rattle.board_text.specs.Board.{length_in, room_with_text};
ghost use Rattle.state_file.specs.StateFile.{read_file, refusal_number};
ghost use Rattle.embed.specs.Embed.{serve_file, replay_file};
ghost use Rattle.salvage_file.specs.Salvage.{salvage_of};
ghost use Rattle.salvage_file.specs.Walk.{Salvages};
ghost use Rattle.server.specs.Serve.{Tells};
ghost use Rattle.embed.specs.Halves.{judge_file, reply_file};
ghost use Rattle.embed.specs.Occupancy.{board_number, room_with_board};
ghost use Rattle.embed.specs.Promises.{ServesFile, JudgesFile, ReplaysFile};

#[unsafe(no_mangle)]
pub extern "C" fn banshorra_check(file: &[u8]) -> u8
    ensures { result ≡ refusal_number (read_file file.now) }
{
    embed::banshorra_check(file)
}

#[unsafe(no_mangle)]
pub extern "C" fn banshorra_board(file: &[u8], text: &mut [u8]) -> usize
    ensures length { result ≡ length_in (read_file file.now) text.old }
    ensures octets { text.new ≡ room_with_text (read_file file.now) text.old }
{
    embed::banshorra_board(file, text)
}

#[unsafe(no_mangle)]
pub extern "C" fn banshorra_occupancy(file: &[u8], board: &mut [u8]) -> u8
    ensures number { result ≡ board_number (read_file file.now) (length board.old) }
    ensures octets { board.new ≡ room_with_board (read_file file.now) board.old }
{
    embed::banshorra_occupancy(file, board)
}

#[unsafe(no_mangle)]
pub extern "C" fn banshorra_serve(
    file: &mut [u8],
    file_length: &mut usize,
    datagram: &[u8],
    client: u32,
    time: u32,
    reply: &mut [u8],
    reply_length: &mut usize,
    fault_offset: &mut usize,
    count: &mut usize,
) -> u8
    ensures { ServesFile (serve_file file.old file_length.old (record { datagram = datagram.now; client = client; time = time; room = length reply.old })) file.new file_length.new reply.old reply.new (record { outcome = result; length = reply_length.new; offset = fault_offset.new; count = count.new }) }
{
    embed::banshorra_serve(
        file,
        file_length,
        datagram,
        client,
        time,
        reply,
        reply_length,
        fault_offset,
        count,
    )
}

#[unsafe(no_mangle)]
pub extern "C" fn banshorra_judge(
    file: &mut [u8],
    file_length: &mut usize,
    datagram: &[u8],
    client: u32,
    time: u32,
    verdict: &mut [u8; 75],
) -> u8
    ensures { JudgesFile (judge_file file.old file_length.old client time datagram.now) file.new file_length.new verdict.old verdict.new result }
{
    embed::banshorra_judge(file, file_length, datagram, client, time, verdict)
}

#[unsafe(no_mangle)]
pub extern "C" fn banshorra_reply(
    file: &[u8],
    verdict: &[u8; 75],
    reply: &mut [u8],
    reply_length: &mut usize,
    fault_offset: &mut usize,
    count: &mut usize,
) -> u8
    ensures { Tells (reply_file file.now verdict.now (length reply.old)) reply.old reply.new (record { outcome = result; length = reply_length.new; offset = fault_offset.new; count = count.new }) }
{
    embed::banshorra_reply(file, verdict, reply, reply_length, fault_offset, count)
}

#[unsafe(no_mangle)]
pub extern "C" fn banshorra_replay(
    file: &mut [u8],
    file_length: &mut usize,
    calls: &[u8],
    used: &mut usize,
    answers: &mut [u8],
    filled: &mut usize,
) -> u8
    ensures { ReplaysFile (replay_file file.old file_length.old calls.now (length answers.old)) file.new file_length.new used.new answers.old answers.new filled.new result }
{
    embed::banshorra_replay(file, file_length, calls, used, answers, filled)
}

#[unsafe(no_mangle)]
pub extern "C" fn banshorra_salvage(
    file: &[u8],
    room: &mut [u8],
    room_length: &mut usize,
    list: &mut [u8],
    list_length: &mut usize,
) -> u8
    ensures { Salvages (salvage_of file.now (length room.old) (length list.old)) room.old list.old room.new list.new result room_length.new list_length.new }
{
    embed::banshorra_salvage(file, room, room_length, list, list_length)
}
