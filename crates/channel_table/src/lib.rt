// The channel table: one row a channel, by code.
#![tactic(auto)]

ghost use Rattle.std.specs.Prelude.{◌≡◌, ◌<◌};
ghost use Rattle.model.specs.Limits.{channels};
ghost use Rattle.model.specs.Channel.{channel_of};
ghost use Rattle.channel_table.specs.Table.{channel_in};

// To send m: no condition; no f under way with f's send before m's receive; the channel empty.
#[derive(Clone, Copy)]
pub enum ToSend {
    Always,
    NoEarlierUnderWay,
    ChannelEmpty,
}

// To deliver m: no condition; no other f under way to that board with f's send before m's send; nothing else under way.
#[derive(Clone, Copy)]
pub enum ToDeliver {
    Always,
    InOrder,
    Alone,
}

// A row of the table. On an eager channel a board sends, or takes a delivery, only while its buffer is empty.
#[derive(Clone, Copy)]
pub struct Channel {
    pub eager: bool,
    pub to_send: ToSend,
    pub to_deliver: ToDeliver,
}

// One row a channel, by code.
const TABLE: [Channel; model::CHANNELS] = [
    Channel {
        eager: true, // code 0, eager free-running
        to_send: ToSend::Always,
        to_deliver: ToDeliver::Always,
    },
    Channel {
        eager: false, // code 1, lazy free-running
        to_send: ToSend::Always,
        to_deliver: ToDeliver::Always,
    },
    Channel {
        eager: true, // code 2, eager FIFO
        to_send: ToSend::Always,
        to_deliver: ToDeliver::InOrder,
    },
    Channel {
        eager: false, // code 3, lazy FIFO
        to_send: ToSend::Always,
        to_deliver: ToDeliver::InOrder,
    },
    Channel {
        eager: true, // code 4, synchronous, eager
        to_send: ToSend::NoEarlierUnderWay,
        to_deliver: ToDeliver::Always,
    },
    Channel {
        eager: true, // code 5, token ring, eager
        to_send: ToSend::ChannelEmpty,
        to_deliver: ToDeliver::Alone,
    },
];

// The channel of a code.
pub fn channel_of(code: usize) -> Channel
    requires { code < channels }
    ensures { channel_in result ≡ channel_of code }
{
    TABLE[code]
}
